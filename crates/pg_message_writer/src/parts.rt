//! The parts of packets, appended where there is room.

ghost use Rattle.std.specs.Prelude.{◌≡◌, ◌+◌, ◌≤◌, ◌∷◌, ◌++◌, [], pos, codes, map, length, true};
ghost use Rattle.pg_term.specs.declared.term.Term.{List};
ghost use Rattle.pg_term.specs.declared.term.Term.TheVariants as terms;
ghost use Rattle.pg_message_types.specs.PgTermIo.Writing.{item_bytes, all_bytes, written, IsSpelled};
ghost use Rattle.pg_message_types.specs.declared.message.Message.TheVariants as messages;
ghost use Rattle.pg_message_types.specs.Writing.{pair, triple, update_term, request_term, said_term};
ghost use Rattle.pg_message_types.specs.Writing.{group_term, message_term, term_of_packet, is_plain};
ghost use Rattle.pg_message_writer.specs.Puts.{Puts, PutsAll, PutsOpening};
ghost use Rattle.pg_message_writer.specs.Told.{reference_lent, asked_for, message_told, packet_told};
ghost use Rattle.pg_message_types.specs.PgTermIo.Limits.{max_len};

use crate::told::{Asked, Mark, Told};
use bytes::BytesMut;
use pg_message_types::{
    Said, Update, put_atom, put_int, put_item, put_list_head, put_pid, put_reference,
};
use pg_term::{Atom, Items, Pid, Reference, Term};

/// Appends the body of a packet.
#[tactic(auto, using(crate::proofs::Words::pair_len))]
pub(crate) fn put_body(out: &mut BytesMut, stamp: u32, told: &Told<'_>)
    requires short { length (written (term_of_packet (packet_told stamp told.now))) ≤ max_len }
    requires room { length (written (term_of_packet (packet_told stamp told.now))) ≤ out.old.spare }
    ensures items { out.new.items
        ≡ out.old.items ++ written (term_of_packet (packet_told stamp told.now)) }
    ensures spare { out.new.spare + length (written (term_of_packet (packet_told stamp told.now)))
        ≡ out.old.spare }
    ensures spelled { IsSpelled (term_of_packet (packet_told stamp told.now)) }
{
    out.extend_reserved(&[131, 104, 2]);
    put_stamp(out, stamp);
    put_told(out, told);
}

fn put_told(out: &mut BytesMut, told: &Told<'_>)
    requires short { length (item_bytes (message_term (message_told told.now))) ≤ max_len }
    requires room { length (item_bytes (message_term (message_told told.now))) ≤ out.old.spare }
    ensures { Puts out.old out.new (message_term (message_told told.now)) }
{
    match told {
        Told::Call(mark, asked) => put_call(out, mark, asked),
        Told::Reply(mark, said) => put_reply(out, mark, *said),
        Told::DelLock(name, mark) => put_freed(out, name, mark),
        Told::Exchange(node, groups) => put_exchange(out, node, groups),
        Told::Down(pid) => put_down(out, pid),
    }
}

// {call, Ref, Request}
#[tactic(auto, using(crate::proofs::Words::triple_len))]
fn put_call(out: &mut BytesMut, mark: &Mark<'_>, asked: &Asked<'_>)
    requires short { length (item_bytes
        (message_term (messages.Call (reference_lent mark.now) (asked_for asked.now)))) ≤ max_len }
    requires room { length (item_bytes
        (message_term (messages.Call (reference_lent mark.now) (asked_for asked.now))))
        ≤ out.old.spare }
    ensures { Puts out.old out.new
        (message_term (messages.Call (reference_lent mark.now) (asked_for asked.now))) }
{
    put_opening(out, 3, "call");
    put_mark(out, mark);
    put_asked(out, asked);
}

fn put_asked(out: &mut BytesMut, asked: &Asked<'_>)
    requires short { length (item_bytes (request_term (asked_for asked.now))) ≤ max_len }
    requires room { length (item_bytes (request_term (asked_for asked.now))) ≤ out.old.spare }
    ensures { Puts out.old out.new (request_term (asked_for asked.now)) }
{
    match asked {
        Asked::SetLock(name) => put_named(out, "set_lock", name),
        Asked::Change(update) => put_update(out, update),
    }
}

fn put_update(out: &mut BytesMut, update: &Update)
    requires short { length (item_bytes (update_term update.now)) ≤ max_len }
    requires room { length (item_bytes (update_term update.now)) ≤ out.old.spare }
    ensures { Puts out.old out.new (update_term update.now) }
{
    match update {
        Update::Create(name) => put_named(out, "create", name),
        Update::Delete(name) => put_named(out, "delete", name),
        Update::Join(name, pid) => put_membership(out, "join", name, pid),
        Update::Leave(name, pid) => put_membership(out, "leave", name, pid),
    }
}

// {Word, Name}
#[tactic(auto, using(crate::proofs::Words::pair_len))]
fn put_named(out: &mut BytesMut, word: &str, name: &Term)
    requires plain { is_plain word.now ≡ true }
    requires few { length word.now ≤ 255 }
    requires short { length (item_bytes (pair (terms.Atom word.now) name.now)) ≤ max_len }
    requires room { length (item_bytes (pair (terms.Atom word.now) name.now)) ≤ out.old.spare }
    ensures { Puts out.old out.new (pair (terms.Atom word.now) name.now) }
{
    put_opening(out, 2, word);
    put_name(out, name);
}

// {Word, Name, Pid}
#[tactic(auto, using(crate::proofs::Words::triple_len))]
fn put_membership(out: &mut BytesMut, word: &str, name: &Term, pid: &Pid)
    requires plain { is_plain word.now ≡ true }
    requires few { length word.now ≤ 255 }
    requires short { length (item_bytes (triple (terms.Atom word.now) name.now (terms.Pid pid.now)))
        ≤ max_len }
    requires room { length (item_bytes (triple (terms.Atom word.now) name.now (terms.Pid pid.now)))
        ≤ out.old.spare }
    ensures { Puts out.old out.new (triple (terms.Atom word.now) name.now (terms.Pid pid.now)) }
{
    put_opening(out, 3, word);
    put_name(out, name);
    put_process(out, pid);
}

// {reply, Ref, Said}
#[tactic(auto, using(crate::proofs::Words::triple_len))]
fn put_reply(out: &mut BytesMut, mark: &Mark<'_>, said: Said)
    requires short { length (item_bytes (message_term (messages.Reply (reference_lent mark.now) said)))
        ≤ max_len }
    requires room { length (item_bytes (message_term (messages.Reply (reference_lent mark.now) said)))
        ≤ out.old.spare }
    ensures { Puts out.old out.new (message_term (messages.Reply (reference_lent mark.now) said)) }
{
    put_opening(out, 3, "reply");
    put_mark(out, mark);
    put_said(out, said);
}

fn put_said(out: &mut BytesMut, said: Said)
    requires { length (item_bytes (said_term said)) ≤ out.old.spare }
    ensures { Puts out.old out.new (said_term said) }
{
    match said {
        Said::Granted => put_word(out, "true"),
        Said::Denied => put_word(out, "false"),
        Said::Applied => put_word(out, "ok"),
    }
}

// {cast, {del_lock, Name, Ref}}
#[tactic(auto, using(crate::proofs::Words::pair_len, crate::proofs::Words::triple_len))]
fn put_freed(out: &mut BytesMut, name: &Term, mark: &Mark<'_>)
    requires short { length (item_bytes
        (message_term (messages.DelLock name.now (reference_lent mark.now)))) ≤ max_len }
    requires room { length (item_bytes
        (message_term (messages.DelLock name.now (reference_lent mark.now)))) ≤ out.old.spare }
    ensures { Puts out.old out.new
        (message_term (messages.DelLock name.now (reference_lent mark.now))) }
{
    put_opening(out, 2, "cast");
    put_opening(out, 3, "del_lock");
    put_name(out, name);
    put_mark(out, mark);
}

// {cast, {exchange, Node, Groups}}
#[tactic(auto, using(crate::proofs::Words::pair_len, crate::proofs::Words::triple_len))]
fn put_exchange(out: &mut BytesMut, node: &Atom, groups: &[(Term, Items<Pid>)])
    requires short { length (item_bytes (message_term (messages.Exchange node.now groups.now)))
        ≤ max_len }
    requires room { length (item_bytes (message_term (messages.Exchange node.now groups.now)))
        ≤ out.old.spare }
    ensures { Puts out.old out.new (message_term (messages.Exchange node.now groups.now)) }
{
    put_opening(out, 2, "cast");
    put_opening(out, 3, "exchange");
    put_node(out, node);
    put_groups(out, groups);
}

// {down, Pid}
#[tactic(auto, using(crate::proofs::Words::pair_len))]
fn put_down(out: &mut BytesMut, pid: &Pid)
    requires short { length (item_bytes (message_term (messages.Down pid.now))) ≤ max_len }
    requires room { length (item_bytes (message_term (messages.Down pid.now))) ≤ out.old.spare }
    ensures { Puts out.old out.new (message_term (messages.Down pid.now)) }
{
    put_opening(out, 2, "down");
    put_process(out, pid);
}

// [[Name, Members], ..]
fn put_groups(out: &mut BytesMut, groups: &[(Term, Items<Pid>)])
    requires short { length (item_bytes (List (map group_term groups.now))) ≤ max_len }
    requires room { length (item_bytes (List (map group_term groups.now))) ≤ out.old.spare }
    ensures { Puts out.old out.new (List (map group_term groups.now)) }
{
    put_list_head(out, groups.len() as u32);
    put_all_groups(out, groups);
    out.extend_reserved(&[106]);
}

fn put_all_groups(out: &mut BytesMut, groups: &[(Term, Items<Pid>)])
    requires short { length (all_bytes (map group_term groups.now)) ≤ max_len }
    requires room { length (all_bytes (map group_term groups.now)) ≤ out.old.spare }
    ensures { PutsAll out.old out.new (map group_term groups.now) }
{
    for group in groups {
        put_group(out, group);
    }
}

// [Name, Members]
#[tactic(auto, using(crate::proofs::Words::two_len))]
fn put_group(out: &mut BytesMut, group: &(Term, Items<Pid>))
    requires short { length (item_bytes (group_term group.now)) ≤ max_len }
    requires room { length (item_bytes (group_term group.now)) ≤ out.old.spare }
    ensures { Puts out.old out.new (group_term group.now) }
{
    put_list_head(out, 2);
    put_name(out, &group.0);
    put_pids(out, group.1.as_slice());
    out.extend_reserved(&[106]);
}

fn put_pids(out: &mut BytesMut, pids: &[Pid])
    requires short { length (item_bytes (List (map terms.Pid pids.now))) ≤ max_len }
    requires room { length (item_bytes (List (map terms.Pid pids.now))) ≤ out.old.spare }
    ensures { Puts out.old out.new (List (map terms.Pid pids.now)) }
{
    put_list_head(out, pids.len() as u32);
    put_all_pids(out, pids);
    out.extend_reserved(&[106]);
}

fn put_all_pids(out: &mut BytesMut, pids: &[Pid])
    requires short { length (all_bytes (map terms.Pid pids.now)) ≤ max_len }
    requires room { length (all_bytes (map terms.Pid pids.now)) ≤ out.old.spare }
    ensures { PutsAll out.old out.new (map terms.Pid pids.now) }
{
    for pid in pids {
        put_process(out, pid);
    }
}

// What is before the other elements of a tuple whose first is a word: SMALL_TUPLE_EXT and SMALL_ATOM_UTF8_EXT.
#[tactic(auto, using(crate::proofs::Words::word_len))]
fn put_opening(out: &mut BytesMut, arity: u8, word: &str)
    requires plain { is_plain word.now ≡ true }
    requires few { length word.now ≤ 255 }
    requires room { 2 + length (item_bytes (terms.Atom word.now)) ≤ out.old.spare }
    ensures { PutsOpening out.old out.new arity word.now }
{
    out.extend_reserved(&[104, arity, 119, word.len() as u8]);
    out.extend_reserved(word.as_bytes());
}

// A word as an atom: SMALL_ATOM_UTF8_EXT.
#[tactic(auto, using(crate::proofs::Words::word_len))]
fn put_word(out: &mut BytesMut, word: &str)
    requires plain { is_plain word.now ≡ true }
    requires few { length word.now ≤ 255 }
    requires room { length (item_bytes (terms.Atom word.now)) ≤ out.old.spare }
    ensures { Puts out.old out.new (terms.Atom word.now) }
{
    out.extend_reserved(&[119, word.len() as u8]);
    out.extend_reserved(word.as_bytes());
}

// The next ones append a part by a call of pg_term_io, each with a clause of its own: what they put.
pub(crate) fn put_stamp(out: &mut BytesMut, stamp: u32)
    requires { length (item_bytes (terms.Int (pos stamp))) ≤ out.old.spare }
    ensures { Puts out.old out.new (terms.Int (pos stamp)) }
{
    put_int(out, i64::from(stamp));
}

fn put_name(out: &mut BytesMut, name: &Term)
    requires short { length (item_bytes name.now) ≤ max_len }
    requires room { length (item_bytes name.now) ≤ out.old.spare }
    ensures { Puts out.old out.new name.now }
{
    put_item(out, name);
}

fn put_node(out: &mut BytesMut, node: &Atom)
    requires { length (item_bytes (terms.Atom node.now)) ≤ out.old.spare }
    ensures { Puts out.old out.new (terms.Atom node.now) }
{
    put_atom(out, node);
}

fn put_mark(out: &mut BytesMut, mark: &Mark<'_>)
    requires { length (item_bytes (terms.Ref (reference_lent mark.now))) ≤ out.old.spare }
    ensures { Puts out.old out.new (terms.Ref (reference_lent mark.now)) }
{
    match mark {
        Mark::Whole(reference) => put_ref(out, reference),
        Mark::Parts(node, creation, words) => put_ref_parts(out, node, *creation, words),
    }
}

fn put_ref(out: &mut BytesMut, reference: &Reference)
    requires { length (item_bytes (terms.Ref reference.now)) ≤ out.old.spare }
    ensures { Puts out.old out.new (terms.Ref reference.now) }
{
    put_reference(out, reference);
}

// A reference of three words by its parts: NEWER_REFERENCE_EXT.
fn put_ref_parts(out: &mut BytesMut, node: &Atom, creation: u32, words: &[u32; 3])
    requires { length (item_bytes (terms.Ref
        (record { node = node.now; creation = creation; words = words.now }))) ≤ out.old.spare }
    ensures { Puts out.old out.new
        (terms.Ref (record { node = node.now; creation = creation; words = words.now })) }
{
    out.extend_reserved(&[90, 0, 3]);
    put_atom(out, node);
    out.extend_reserved(&creation.to_be_bytes());
    out.extend_reserved(&words[0].to_be_bytes());
    out.extend_reserved(&words[1].to_be_bytes());
    out.extend_reserved(&words[2].to_be_bytes());
}

fn put_process(out: &mut BytesMut, pid: &Pid)
    requires { length (item_bytes (terms.Pid pid.now)) ≤ out.old.spare }
    ensures { Puts out.old out.new (terms.Pid pid.now) }
{
    put_pid(out, pid);
}
