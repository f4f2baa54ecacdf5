//! What is only run of nodes over bytes: two of them with links between them, faults that damage a link, turns of one alone, and
//! how a thread rests.
#![tactic(auto)]

#[cfg(test)]
mod bytes;
#[cfg(test)]
mod links;
#[cfg(test)]
mod rests;
#[cfg(test)]
mod sights;
#[cfg(test)]
mod turns;
