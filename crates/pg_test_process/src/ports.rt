//! The requests of a port, and when it gives way.

use crate::sights::holds_at;
use pg_node_process::{Courtesy, Desk, MAX_WAITING, Seen, Taken};
use pg_step::Command;
use std::alloc::{AllocError, Global};

/// Whether of so many changes as wait and a few more the first are taken in.
fn take_in_all(desk: &mut Desk) -> Result<bool, AllocError> {
    let mut is_so = desk.count() == 1;
    for place in 0..MAX_WAITING + 3 {
        match desk.take_in(Command::Make) {
            Ok(taken) => is_so = is_so && (taken == Taken::Waits) == (place < MAX_WAITING),
            Err(AllocError) => return Err(AllocError),
        }
    }
    Ok(is_so && desk.count() == MAX_WAITING as u64 + 5)
}

/// Whether those that wait are handed over in order, one once the one before it is answered.
fn hand_over_all(desk: &mut Desk) -> bool {
    let mut is_so = true;
    for place in 0..MAX_WAITING {
        is_so = is_so && desk.next() && !desk.next();
        is_so = is_so && desk.answered() == Some(place as u64 + 2);
    }
    is_so && !desk.next() && desk.answered().is_none()
}

/// Whether changes are taken in and handed over so.
fn go_in_turn(alloc: Global) -> Result<bool, AllocError> {
    let mut desk = Desk::new(alloc);
    let is_full = take_in_all(&mut desk);
    let is_so = hand_over_all(&mut desk);
    drop(desk);
    Ok(is_full? && is_so)
}

#[test]
fn changes_go_in_turn(rt: HostRuntime) {
    holds_at(&rt, go_in_turn(rt.alloc()) == Ok(true), "they go so at", 0);
}

#[test]
fn a_port_gives_way_for_two_ticks(rt: HostRuntime) {
    let mut courtesy = Courtesy::new();
    courtesy.share();
    for change in 0..4 {
        holds_at(
            &rt,
            !courtesy.gives_way(),
            "none is to wait after change",
            change,
        );
        courtesy.close();
    }
    for tick in 0..2 {
        holds_at(&rt, courtesy.gives_way(), "one waits at tick", tick);
        courtesy.look(Seen::Free, false);
        holds_at(&rt, courtesy.gives_way(), "one waits before tick", tick);
        courtesy.look(Seen::Own, true);
    }
    holds_at(&rt, !courtesy.gives_way(), "none is to wait at tick", 2);
}

#[test]
fn a_denied_change_is_due(rt: HostRuntime) {
    let mut courtesy = Courtesy::new();
    holds_at(&rt, courtesy.tell() && !courtesy.tell(), "it is told at", 0);
    holds_at(
        &rt,
        !courtesy.is_due(Seen::Free, false),
        "none is due at",
        0,
    );
    holds_at(&rt, courtesy.is_due(Seen::Free, true), "it is due at", 0);
    holds_at(
        &rt,
        !courtesy.is_due(Seen::Other, true),
        "none is due at",
        1,
    );
    courtesy.look(Seen::Other, false);
    holds_at(&rt, courtesy.is_due(Seen::Free, false), "it is due at", 1);
    courtesy.try_now();
    holds_at(&rt, courtesy.tell(), "it is told at", 1);
    holds_at(
        &rt,
        !courtesy.is_due(Seen::Free, false),
        "none is due at",
        2,
    );
}
