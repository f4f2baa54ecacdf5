//! What no clause says of the program: what it prints, also where a reader, a writer or a file fails.
#![tactic(auto)]

#[cfg(test)]
mod fakes;
#[cfg(test)]
mod program;
