//! Figures: how fast terms and packets are read and written, how fast bytes cross a ring, how fast tables of groups are
//! changed and asked, and how much memory they take. The first word says which: `codec`, `packets`, `rings`, `tables`, `memory` or
//! `ended`; with none, each but the last two once and small. The figures go to standard error, since they differ from run to run.
#![tactic(auto)]

mod ends;
mod rings;
mod tables;
mod values;

use pg_test_kit::word;
use std::env;
use values::{PACKETS, TERMS};

// The figures that the words name, but for those of threads; whether they could be taken.
fn run(rt: &HostRuntime, words: &[String]) -> bool {
    match word(words, 0) {
        "codec" => values::run(rt, words, TERMS),
        "packets" => values::run(rt, words, PACKETS),
        "tables" => tables::run(rt, words),
        "ended" => ends::run(rt, words),
        "memory" => tables::run_memory(rt, words),
        _ => false,
    }
}

// The same, each once and small, but for memory and the ended, of which only Linux reports.
fn run_each(rt: &HostRuntime) -> bool {
    values::run(rt, &[], TERMS) && values::run(rt, &[], PACKETS) && tables::run(rt, &[])
}

fn main(rt: HostRuntime) -> anyhow::Result<()> {
    let words: Vec<String> = env::args(&rt)?.skip(1).collect(rt.alloc())?;
    let is_done = match word(&words, 0) {
        "" => rings::cross(&rt, 100) && run_each(&rt),
        "rings" => rings::cross(&rt, 1),
        _ => run(&rt, &words),
    };
    if !is_done {
        anyhow::bail!(
            "no such figures, no number, or no memory: codec, packets, rings, tables, memory and ended have figures"
        );
    }
    Ok(())
}
