//! Figures: how fast nodes, worlds of nodes and clusters of threads are. The first word says which: `nodes`, `worlds`, `turns` or
//! `cluster`; with none, all but the last once and small. The figures go to standard error, since they differ from run to run.
#![tactic(auto)]

mod cluster;
mod commands;
mod config;
mod nodes;
mod turns;
mod worlds;

use pg_test_kit::word;
use std::env;

fn main(rt: HostRuntime) -> anyhow::Result<()> {
    let words: Vec<String> = env::args(&rt)?.skip(1).collect(rt.alloc())?;
    let is_done = match word(&words, 0) {
        "" => nodes::run(&rt, &[]) && worlds::run(&rt, &[]) && turns::run(&rt, &[]),
        "nodes" => nodes::run(&rt, &words),
        "worlds" => worlds::run(&rt, &words),
        "turns" => turns::run(&rt, &words),
        "cluster" => cluster::run(&rt, &words),
        _ => false,
    };
    if !is_done {
        anyhow::bail!(
            "no such figures, no number, or no memory: nodes, worlds, turns and cluster have figures"
        );
    }
    Ok(())
}
