//! How many bytes packets take.

ghost use Rattle.std.specs.Prelude.{◌≡◌, ◌+◌, ◌≤◌, ◌∷◌, [], ℕ, pos, codes, map, length};
ghost use Rattle.std.specs.Prelude.{min, IfOk, IsOk, IfSome, IfNone, true, false};
ghost use Rattle.std.specs.List.{list_all};
ghost use Rattle.pg_term.specs.declared.term.Term.{List};
ghost use Rattle.pg_term.specs.declared.term.Term.TheVariants as terms;
ghost use Rattle.pg_message_types.specs.PgTermIo.Writing.{item_bytes, all_bytes};
ghost use Rattle.pg_message_types.specs.PgGroup.Value.{name_of};
ghost use Rattle.pg_message_types.specs.declared.message.Message.TheVariants as messages;
ghost use Rattle.pg_message_types.specs.Name.{is_name};
ghost use Rattle.pg_message_types.specs.Writing.{pair, triple, update_term, said_term, group_term, message_term};
ghost use Rattle.pg_message_types.specs.Writing.{is_plain, is_exchange, is_sayable, body_of, length_of};
ghost use Rattle.pg_message_writer.specs.Told.{reference_lent, asked_for, message_told, packet_told};
ghost use Rattle.pg_message_types.specs.Limits.{max_stamp};
ghost use Rattle.pg_message_writer.specs.Limits.{max_small_len};

use crate::told::{Asked, Mark, Told};
use pg_message_types::{
    MAX_LEN, MAX_STAMP, MessageFault, Packet, Said, Update, are_named_once, atom_len, int_len,
    list_head_len, name_len, pid_len, reference_len,
};
use pg_term::{Atom, Items, Pid, Term, TermFault};

/// How many bytes a body takes at most, if it is no exchange.
pub const MAX_SMALL_LEN: usize = 3126;

/// How many bytes the body of a packet takes, at most 3,126 if it is no exchange.
///
/// Errors: `NotAMessage`, where `check_name` refuses a name, or an exchange names a group twice; `StampTooLarge`;
/// `TooLong`, where the body takes more than 16,777,216 bytes.
///
/// Cost: no memory; one walk over each name and each list of members; in an exchange whose groups do not ascend in
/// the order of terms each name is compared with all that follow.
///
/// The rule: the External Term Format chapter of the Erlang documentation.
pub fn packet_len(packet: &Packet) -> Result<usize, MessageFault>
    ensures exact { result ≡ length_of (body_of packet.now) }
    ensures few { is_exchange packet.now.message ≡ false
        → IfOk result (λ len. len ≤ max_small_len) }

    // Only an exchange can be too long.
    ensures small { is_sayable packet.now.message ≡ true → packet.now.stamp ≤ max_stamp
        → is_exchange packet.now.message ≡ false → IsOk result }
{
    told_len(packet.stamp, &Told::of(&packet.message))
}

/// The same of a message that is lent.
pub(crate) fn told_len(stamp: u32, told: &Told<'_>) -> Result<usize, MessageFault>
    ensures exact { result ≡ length_of (body_of (packet_told stamp told.now)) }
    ensures few { is_exchange (message_told told.now) ≡ false
        → IfOk result (λ len. len ≤ max_small_len) }
    ensures small { is_sayable (message_told told.now) ≡ true → stamp ≤ max_stamp
        → is_exchange (message_told told.now) ≡ false → IsOk result }
{
    let Some(message) = message_len(told) else {
        return Err(MessageFault::NotAMessage);
    };
    if stamp > MAX_STAMP {
        return Err(MessageFault::StampTooLarge);
    }
    let len = message.saturating_add(3 + stamp_len(stamp));
    if len > MAX_LEN {
        return Err(MessageFault::Term(TermFault::TooLong));
    }
    Ok(len)
}

pub(crate) fn stamp_len(stamp: u32) -> usize
    ensures value { result ≡ length (item_bytes (terms.Int (pos stamp))) }
    ensures few { stamp ≤ max_stamp → result ≤ 5 }
    ensures bound { result ≤ 11 }
{
    int_len(i64::from(stamp))
}

// What a message takes as one item, or `usize::MAX` where that is smaller; `None` for what may not be sent.
fn message_len(told: &Told<'_>) -> Option<usize>
    ensures len { IfSome result
        (λ len. len ≡ min (length (item_bytes (message_term (message_told told.now)))) usize.MAX) }
    ensures few { is_exchange (message_told told.now) ≡ false → IfSome result (λ len. len ≤ 3118) }
    ensures some { IfSome result (λ len. is_sayable (message_told told.now) ≡ true) }
    ensures none { IfNone result (is_sayable (message_told told.now) ≡ false) }
{
    match told {
        Told::Call(mark, asked) => call_len(mark, asked),
        Told::Reply(mark, said) => Some(reply_len(mark, *said)),
        Told::DelLock(name, mark) => freed_len(name, mark),
        Told::Exchange(node, groups) => exchange_len(node, groups),
        Told::Down(pid) => Some(down_len(pid)),
    }
}

// {call, Ref, Request}
#[tactic(auto, using(crate::proofs::Words::triple_len))]
fn call_len(mark: &Mark<'_>, asked: &Asked<'_>) -> Option<usize>
    ensures len { IfSome result (λ len. len ≡ length (item_bytes
        (message_term (messages.Call (reference_lent mark.now) (asked_for asked.now))))) }
    ensures few { IfSome result (λ len. len ≤ 3118) }
    ensures some { IfSome result
        (λ len. is_sayable (messages.Call (reference_lent mark.now) (asked_for asked.now)) ≡ true) }
    ensures none { IfNone result
        (is_sayable (messages.Call (reference_lent mark.now) (asked_for asked.now)) ≡ false) }
{
    let asked = match asked {
        Asked::SetLock(name) => named_len("set_lock", name)?,
        Asked::Change(update) => update_len(update)?,
    };
    Some(2 + word_len("call") + mark_len(mark) + asked)
}

/// How many bytes the reference takes.
fn mark_len(mark: &Mark<'_>) -> usize
    ensures len { result ≡ length (item_bytes (terms.Ref (reference_lent mark.now))) }
    ensures few { result ≤ 1042 }
{
    match mark {
        Mark::Whole(reference) => reference_len(reference),
        Mark::Parts(node, _, words) => parts_len(node, words),
    }
}

// How many bytes a reference of three words takes, whatever its creation.
fn parts_len(node: &Atom, words: &[u32; 3]) -> usize
    ensures len { (creation : ℕ) → result ≡ length (item_bytes (terms.Ref
        (record { node = node.now; creation = creation; words = words.now }))) }
    ensures few { result ≤ 1042 }
{
    7 + atom_len(node) + 4 * words.len()
}

fn update_len(update: &Update) -> Option<usize>
    ensures len { IfSome result (λ len. len ≡ length (item_bytes (update_term update.now))) }
    ensures few { IfSome result (λ len. len ≤ 2068) }
    ensures some { IfSome result (λ len. is_name (name_of update.now) ≡ true) }
    ensures none { IfNone result (is_name (name_of update.now) ≡ false) }
{
    match update {
        Update::Create(name) => named_len("create", name),
        Update::Delete(name) => named_len("delete", name),
        Update::Join(name, pid) => membership_len("join", name, pid),
        Update::Leave(name, pid) => membership_len("leave", name, pid),
    }
}

// {Word, Name}
#[tactic(auto, using(crate::proofs::Words::pair_len))]
fn named_len(word: &str, name: &Term) -> Option<usize>
    requires plain { is_plain word.now ≡ true }
    requires short { length word.now ≤ 255 }
    ensures len { IfSome result
        (λ len. len ≡ length (item_bytes (pair (terms.Atom word.now) name.now))) }
    ensures few { IfSome result (λ len. len ≤ 1027 + length word.now) }
    ensures some { IfSome result (λ len. is_name name.now ≡ true) }
    ensures none { IfNone result (is_name name.now ≡ false) }
{
    let len = name_len(name)?;
    Some(2 + word_len(word) + len)
}

// {Word, Name, Pid}
#[tactic(auto, using(crate::proofs::Words::triple_len))]
fn membership_len(word: &str, name: &Term, pid: &Pid) -> Option<usize>
    requires plain { is_plain word.now ≡ true }
    requires short { length word.now ≤ 255 }
    ensures len { IfSome result (λ len. len ≡ length (item_bytes
        (triple (terms.Atom word.now) name.now (terms.Pid pid.now)))) }
    ensures few { IfSome result (λ len. len ≤ 2063 + length word.now) }
    ensures some { IfSome result (λ len. is_name name.now ≡ true) }
    ensures none { IfNone result (is_name name.now ≡ false) }
{
    let len = name_len(name)?;
    Some(2 + word_len(word) + len + pid_len(pid))
}

// {reply, Ref, Said}
#[tactic(auto, using(crate::proofs::Words::triple_len))]
pub(crate) fn reply_len(mark: &Mark<'_>, said: Said) -> usize
    ensures len { result ≡ length (item_bytes
        (message_term (messages.Reply (reference_lent mark.now) said))) }
    ensures few { result ≤ 1058 }
{
    2 + word_len("reply") + mark_len(mark) + said_len(said)
}

fn said_len(said: Said) -> usize
    ensures len { result ≡ length (item_bytes (said_term said)) }
    ensures few { result ≤ 7 }
{
    match said {
        Said::Granted => word_len("true"),
        Said::Denied => word_len("false"),
        Said::Applied => word_len("ok"),
    }
}

// {cast, {del_lock, Name, Ref}}
#[tactic(auto, using(crate::proofs::Words::pair_len, crate::proofs::Words::triple_len))]
fn freed_len(name: &Term, mark: &Mark<'_>) -> Option<usize>
    ensures len { IfSome result (λ len. len ≡ length (item_bytes
        (message_term (messages.DelLock name.now (reference_lent mark.now))))) }
    ensures few { IfSome result (λ len. len ≤ 2085) }
    ensures some { IfSome result (λ len. is_name name.now ≡ true) }
    ensures none { IfNone result (is_name name.now ≡ false) }
{
    let len = name_len(name)?;
    Some(2 + word_len("cast") + 2 + word_len("del_lock") + len + mark_len(mark))
}

// {down, Pid}
#[tactic(auto, using(crate::proofs::Words::pair_len))]
fn down_len(pid: &Pid) -> usize
    ensures len { result ≡ length (item_bytes (message_term (messages.Down pid.now))) }
    ensures few { result ≤ 1044 }
{
    2 + word_len("down") + pid_len(pid)
}

// {cast, {exchange, Node, Groups}}
#[tactic(auto, using(crate::proofs::Words::pair_len, crate::proofs::Words::triple_len))]
fn exchange_len(node: &Atom, groups: &[(Term, Items<Pid>)]) -> Option<usize>
    ensures len { IfSome result (λ len. len ≡ min (length (item_bytes
        (message_term (messages.Exchange node.now groups.now)))) usize.MAX) }
    ensures some { IfSome result (λ len. is_sayable (messages.Exchange node.now groups.now) ≡ true) }
    ensures none { IfNone result (is_sayable (messages.Exchange node.now groups.now) ≡ false) }
{
    let len = groups_len(groups)?;
    if !are_named_once(groups) {
        return None;
    }
    let before = 2 + word_len("cast") + 2 + word_len("exchange") + atom_len(node);
    Some(len.saturating_add(before))
}

// [[Name, Members], ..]; `None` where a name is none
fn groups_len(groups: &[(Term, Items<Pid>)]) -> Option<usize>
    ensures len { IfSome result (λ len. len ≡ min (length (item_bytes
        (List (map group_term groups.now)))) usize.MAX) }
    ensures some { IfSome result (λ len. list_all (λ group. is_name group.0) groups.now ≡ true) }
    ensures none { IfNone result (list_all (λ group. is_name group.0) groups.now ≡ false) }
{
    let len = all_groups_len(groups)?;
    Some(len.saturating_add(list_head_len(groups.len()) + 1))
}

fn all_groups_len(groups: &[(Term, Items<Pid>)]) -> Option<usize>
    ensures len { IfSome result
        (λ len. len ≡ min (length (all_bytes (map group_term groups.now))) usize.MAX) }
    ensures some { IfSome result (λ len. list_all (λ group. is_name group.0) groups.now ≡ true) }
    ensures none { IfNone result (list_all (λ group. is_name group.0) groups.now ≡ false) }
{
    let mut len = 0_usize;
    for group in groups {
        len = len.saturating_add(group_len(group)?);
    }
    Some(len)
}

// [Name, Members]
fn group_len(group: &(Term, Items<Pid>)) -> Option<usize>
    ensures len { IfSome result
        (λ len. len ≡ min (length (item_bytes (group_term group.now))) usize.MAX) }
    ensures some { IfSome result (λ len. is_name group.now.0 ≡ true) }
    ensures none { IfNone result (is_name group.now.0 ≡ false) }
{
    let name = name_len(&group.0)?;
    Some(pids_len(group.1.as_slice()).saturating_add(6 + name))
}

fn pids_len(pids: &[Pid]) -> usize
    ensures { result ≡ min (length (item_bytes (List (map terms.Pid pids.now)))) usize.MAX }
{
    all_pids_len(pids).saturating_add(list_head_len(pids.len()) + 1)
}

fn all_pids_len(pids: &[Pid]) -> usize
    ensures { result ≡ min (length (all_bytes (map terms.Pid pids.now))) usize.MAX }
{
    let mut len = 0_usize;
    for pid in pids {
        len = len.saturating_add(pid_len(pid));
    }
    len
}

// A word as an atom.
#[tactic(auto, using(crate::proofs::Words::word_len))]
fn word_len(word: &str) -> usize
    requires plain { is_plain word.now ≡ true }
    requires short { length word.now ≤ 255 }
    ensures len { result ≡ length (item_bytes (terms.Atom word.now)) }
    ensures exact { result ≡ 2 + length word.now }
{
    2 + word.len()
}
