//! What goes out.

use crate::sights::holds_at;
use pg_node_process::{Address, Outlet};
use pg_term::{Atom, Term};
use std::alloc::{AllocError, Global};

/// All that is put below, in its frames: the version, bytes of the second peer, the clock, that the node is formed, that port 2 was denied, and
/// the reply `ok` to request 7 of port 1.
const SAID: &[u8] =
    b"\0\0\0\x05\x15\x010.1\0\0\0\x04\x01xyz\0\0\0\x05\x11\x01\x02\x03\x04\0\0\0\x01\x16\0\0\0\x02\x13\x02\0\0\0\x0e\x83h\x04w\x01aa\x01a\x07w\x02ok";

/// Puts one after the other.
fn put_all(alloc: Global, outlet: &mut Outlet, name: &Atom) -> Result<(), AllocError> {
    outlet.put_version("0.1")?;
    outlet.put_bytes(1, b"xyz")?;
    outlet.put_clock(16_909_060)?;
    outlet.put_formed()?;
    outlet.put_denied(2)?;
    let Ok(word) = Atom::new(alloc, "ok") else {
        return Err(AllocError);
    };
    let address = Address {
        name,
        port: 1,
        number: 7,
    };
    outlet.put_reply(address, Term::Atom(word))
}

/// Whether it is gathered so, and nothing once it was let go.
fn is_said(alloc: Global) -> Result<bool, AllocError> {
    let Ok(name) = Atom::new(alloc, "a") else {
        return Err(AllocError);
    };
    let mut outlet = Outlet::new(alloc);
    let put = put_all(alloc, &mut outlet, &name);
    drop(name);
    let is_so = outlet.bytes() == SAID;
    outlet.clear();
    let is_empty = outlet.bytes().is_empty();
    drop(outlet);
    put?;
    Ok(is_so && is_empty)
}

#[test]
fn what_goes_out_is_gathered(rt: HostRuntime) {
    holds_at(&rt, is_said(rt.alloc()) == Ok(true), "it is said at", 0);
}
