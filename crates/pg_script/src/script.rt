//! A script that was read.

use crate::act::Act;
use pg_script_trace::Config;

/// A script: the configuration that its declarations name, and what its other lines do.
#[derive(Debug, Drop)]
pub struct Script {
    pub config: Config,
    pub lines: Vec<ScriptLine>,
}

/// A line that is no declaration.
#[derive(Debug, Drop)]
pub struct ScriptLine {
    /// Its number, from 1.
    pub number: usize,
    pub act: Act,
}
