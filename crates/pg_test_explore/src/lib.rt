//! What is only run of explorations: how many worlds and ends small scripts have, and that runs play.
#![tactic(auto)]

#[cfg(test)]
mod counts;
#[cfg(test)]
mod runs;
