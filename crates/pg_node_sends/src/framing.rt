//! Orders written as frames.

ghost use Rattle.std.specs.Prelude.{◌≡◌, ◌≤◌, ℕ, true, length, IfOk, OnOk};
ghost use Rattle.pg_node_opens.specs.PgMessageTypes.declared.message.Message.{Message};
ghost use Rattle.pg_node_opens.specs.PgMessageTypes.declared.message.Message.TheVariants as messages;
ghost use Rattle.pg_node_opens.specs.PgMessageTypes.declared.packet.Packet.{Packet};
ghost use Rattle.pg_node_opens.specs.PgMessageTypes.Limits.{max_stamp};
ghost use Rattle.pg_node_opens.specs.PgMessageTypes.Writing.{is_sayable};
ghost use Rattle.pg_message_writer.specs.Told.{asked_for};
ghost use Rattle.pg_node_sends.specs.Frames.{IsAppended, IsFrame};
ghost use Rattle.pg_node_sends.specs.Marked.{marks_of, sent_below};
ghost use Rattle.pg_node_sends.specs.Orders.{message_of, ordered, reference_in};

use crate::framed::Framed;
use crate::goes::Goes;
use crate::orders::{Numbered, Order};
use crate::outgoing::Outgoing;
use bytes::BytesMut;
use pg_message_writer::{
    Asked, write_call_into, write_del_lock_into, write_down_into, write_reply_into,
};
use pg_node_opens::{Places, Said};
use pg_term::{Pid, Reference, Term};
use std::alloc::{AllocError, Global};
use std::mem;

impl Outgoing for Framed {
    ghost use Rattle.pg_node_sends.specs.Framed.{listed_of};

    ghost listed = { listed_of };

    fn nothing(alloc: Global) -> Framed {
        Framed::nobody(alloc)
    }

    fn to_one(
        alloc: Global,
        buffer: &mut BytesMut,
        stamp: u32,
        order: Order<'_>,
        peer: usize,
    ) -> Result<Framed, AllocError> {
        let frame = order_frame(alloc, buffer, stamp, order)?;
        Ok(Framed::new(frame, Goes::One(peer)))
    }

    /// Nothing is written where nobody is marked.
    fn to_marked(
        alloc: Global,
        buffer: &mut BytesMut,
        stamp: u32,
        order: Order<'_>,
        goes: Places,
        peers: usize,
    ) -> Result<Framed, AllocError> {
        if goes.are_within(Places::none()) {
            return Ok(Framed::nobody(alloc));
        }
        let frame = order_frame(alloc, buffer, stamp, order)?;
        Ok(Framed::new(frame, Goes::Marked(goes, peers)))
    }

    fn count(&self) -> usize {
        match self.goes() {
            Goes::Nobody => 0,
            Goes::One(_) => 1,
            Goes::Marked(places, peers) => count_marked(places, peers),
        }
    }
}

/// The frame of an order, written in the memory of a buffer, which is left without any.
///
/// Errors: `AllocError`.
fn order_frame(
    alloc: Global,
    buffer: &mut BytesMut,
    stamp: u32,
    order: Order<'_>,
) -> Result<BytesMut, AllocError>
    requires within { stamp ≤ max_stamp }
    requires named { is_sayable (message_of order) ≡ true }
    ensures { IfOk result (λ frame. IsFrame frame.items (ordered stamp order.entry)) }
{
    buffer.clear();
    append_order(stamp, order, buffer)?;
    Ok(mem::replace(buffer, BytesMut::new(alloc)))
}

/// Appends the frame of an order.
fn append_order(stamp: u32, order: Order<'_>, out: &mut BytesMut) -> Result<(), AllocError>
    requires within { stamp ≤ max_stamp }
    requires named { is_sayable (message_of order) ≡ true }
    ensures { OnOk result (IsAppended out.old.items out.new.items (ordered stamp order.entry)) }
{
    match order {
        Order::Lock(name, reference) => append_call(stamp, reference, Asked::SetLock(name), out),
        Order::Free(name, reference) => append_free(stamp, name, reference, out),
        Order::Change(update, reference) => {
            append_call(stamp, reference, Asked::Change(update), out)
        }
        Order::End(pid) => append_end(stamp, pid, out),
        Order::Reply(reference, said) => append_reply(stamp, reference, said, out),
    }
}

/// Appends the frame of a call.
fn append_call(
    stamp: u32,
    reference: Numbered<'_>,
    asked: Asked<'_>,
    out: &mut BytesMut,
) -> Result<(), AllocError>
    ensures { OnOk result (IsAppended out.old.items out.new.items
        (record { stamp = stamp; message = messages.Call (reference_in reference.entry) (asked_for asked.entry) })) }
{
    match write_call_into(stamp, &reference.lent(), &asked, out) {
        Ok(()) => Ok(()),
        Err(_) => Err(AllocError),
    }
}

/// Appends the frame that frees a lock.
fn append_free(
    stamp: u32,
    name: &Term,
    reference: Numbered<'_>,
    out: &mut BytesMut,
) -> Result<(), AllocError>
    ensures { OnOk result (IsAppended out.old.items out.new.items
        (record { stamp = stamp; message = messages.DelLock name.now (reference_in reference.entry) })) }
{
    match write_del_lock_into(stamp, name, &reference.lent(), out) {
        Ok(()) => Ok(()),
        Err(_) => Err(AllocError),
    }
}

/// Appends the frame that tells an end.
fn append_end(stamp: u32, pid: &Pid, out: &mut BytesMut) -> Result<(), AllocError>
    ensures { OnOk result (IsAppended out.old.items out.new.items
        (record { stamp = stamp; message = messages.Down pid.now })) }
{
    match write_down_into(stamp, pid, out) {
        Ok(()) => Ok(()),
        Err(_) => Err(AllocError),
    }
}

/// Appends the frame of a reply.
fn append_reply(
    stamp: u32,
    reference: &Reference,
    said: Said,
    out: &mut BytesMut,
) -> Result<(), AllocError>
    requires { stamp ≤ max_stamp }
    ensures { OnOk result (IsAppended out.old.items out.new.items
        (record { stamp = stamp; message = messages.Reply reference.now said })) }
{
    write_reply_into(stamp, reference, said, out)
}

/// How many of so many peers are marked. It takes no memory.
fn count_marked(places: Places, peers: usize) -> usize
    ensures { (stamp : ℕ) (message : Message) → result ≡ length (sent_below stamp message (marks_of places peers) peers) }
{
    let mut count = 0;
    for peer in 0..peers {
        if places.has(peer) {
            count += 1;
        }
    }
    count
}
