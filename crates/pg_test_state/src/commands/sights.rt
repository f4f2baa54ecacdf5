use crate::commands::steps::op;
use crate::samples::atom;
use pg_node_opens::{Asked, Gathering, OpId, Opens, Outlook, Stage, Taken};
use pg_term::Atom;
use std::alloc::Global;
use std::process::Abort;

/// What is seen of the open commands of node a. What names what is told at `Step`.
#[derive(Clone, Copy)]
pub enum Sight {
    /// So many commands are open.
    Open(usize),
    /// The command at a place of the list of those that are open.
    At(usize, Option<OpId>),
    Stands(u32, Stage),
    /// Whether a command waits for its retry.
    Waits(u32, bool),
    /// A command waits with its update.
    HasWaitingUpdate(u32),
    /// What is gathered under a reference.
    Gathers(u32, Gathering),
    /// There is an update under a reference.
    HasUpdate(u32),
    /// What follows where the own node grants, or denies.
    Looks(u32, bool, Outlook),
    /// What a reply of a node would be.
    Hears(u32, usize, Taken),
    IsComplete(u32, bool),
    /// Whether the last node would be asked, where the first is asked alone, or all.
    IsAsked(u32, Option<usize>, usize, bool),
    /// Whether a node is lost, and whether it is a live peer.
    Lost(usize, bool, bool),
    Greatest(usize),
    /// Whether a node has this name.
    Named(usize, &'static str, bool),
    /// The place of the node of this name.
    Place(&'static str, Option<usize>),
}

/// Whether this is what is seen.
pub fn see(rt: &impl Abort, alloc: Global, opens: &Opens, sight: Sight) -> bool {
    match sight {
        Sight::Open(count) => opens.open_count() == count,
        Sight::At(place, found) => op_at(opens, place) == found,
        Sight::Stands(number, stage) => opens.stage(op(number)) == stage,
        Sight::Waits(number, waits) => wait_alike(opens, op(number), waits),
        Sight::HasWaitingUpdate(number) => opens.waiting_update(op(number)).is_some(),
        Sight::Gathers(number, gathering) => opens.gathering(number) == gathering,
        Sight::HasUpdate(number) => opens.update(number).is_some(),
        Sight::Looks(number, granted, outlook) => looks(rt, opens, number, granted) == outlook,
        Sight::Hears(number, place, taken) => hears(rt, opens, number, place) == taken,
        Sight::IsComplete(number, is_complete) => opens.is_complete(number) == is_complete,
        Sight::IsAsked(number, only, place, asked) => {
            is_asked(rt, opens, number, only, place) == asked
        }
        Sight::Lost(place, is_lost, is_live) => is_lost_or_live(rt, opens, place)
            == (is_lost, is_live),
        Sight::Greatest(place) => opens.greatest() == place,
        Sight::Named(place, name, named) => {
            let name = atom(rt, alloc, name);
            let told = is_named(rt, opens, place, &name) == named;
            drop(name);
            told
        }
        Sight::Place(name, place) => {
            let name = atom(rt, alloc, name);
            let told = opens.place_of_name(&name) == place;
            drop(name);
            told
        }
    }
}

fn op_at(opens: &Opens, place: usize) -> Option<OpId> {
    if place < opens.open_count() {
        Some(opens.op_at(place))
    } else {
        None
    }
}

// Whether a command waits, wherever it is looked for first.
fn wait_alike(opens: &Opens, op: OpId, waits: bool) -> bool {
    for near in 0..opens.open_count() {
        if opens.waits_near(near, op) != waits {
            return false;
        }
    }
    opens.waits(op) == waits && opens.waits_near(usize::MAX, op) == waits
}

fn looks(rt: &impl Abort, opens: &Opens, number: u32, granted: bool) -> Outlook {
    assert!(rt; opens.is_locking(number));
    opens.outlook(number, granted)
}

fn hears(rt: &impl Abort, opens: &Opens, number: u32, place: usize) -> Taken {
    assert!(rt; place < opens.node_count());
    opens.heard(number, place)
}

fn is_asked(
    rt: &impl Abort,
    opens: &Opens,
    number: u32,
    only: Option<usize>,
    place: usize,
) -> bool {
    assert!(rt; opens.is_locking(number));
    assert!(rt; place < opens.node_count());
    match only {
        Some(only) => {
            assert!(rt; only < opens.node_count());
            opens.is_asked_by(number, Asked::One(only), place)
        }
        None => opens.is_asked_by(number, Asked::All, place),
    }
}

fn is_lost_or_live(rt: &impl Abort, opens: &Opens, place: usize) -> (bool, bool) {
    assert!(rt; place < opens.node_count());
    (opens.is_lost(place), opens.is_live(place))
}

fn is_named(rt: &impl Abort, opens: &Opens, place: usize, name: &Atom) -> bool {
    assert!(rt; place < opens.node_count());
    opens.name(place) == name
}
