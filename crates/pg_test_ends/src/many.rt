//! Processes, groups and peers that are many: sizes above 1,000, past which code changes its way.

mod ends;
mod exchanges;
