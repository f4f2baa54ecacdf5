//! Three programs to read first: a cluster that is asked (`cluster`), nodes over links of one's own (`links`), and a world that is played
//! step by step (`history`). Each makes two nodes by `setting`, and what it comes to is printed.
#![tactic(auto)]

mod cluster;
mod history;
mod links;
mod setting;
mod wire;

use std::alloc::Global;
use std::io;
use std::thread::Threads;
use std::time::Clock;

/// What each of the three comes to.
fn lines<R: Threads, C: Clock + Clone + Drop + Send + 'static>(
    rt: &R,
    alloc: Global,
    clock: C,
) -> Option<[String; 3]> {
    let closest = cluster::closest_member(rt, alloc, clock)?;
    let groups = links::groups_of_both(alloc)?;
    let history = history::history(alloc)?;
    Some([closest, groups, history])
}

fn main(rt: HostRuntime) -> io::Result<()> {
    match lines(&rt, rt.alloc(), rt.clone()?) {
        Some([closest, groups, history]) => {
            println!(rt; "closest member: {closest}")?;
            println!(rt; "groups: {groups}")?;
            println!(rt; "history:{history}")
        }
        None => println!(rt; "out of memory"),
    }
}
