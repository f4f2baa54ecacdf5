//! What is only run of clusters that are closed: what is told of them, what judges say of one that was tampered with, and how their logs
//! are merged.
#![tactic(auto)]

#[cfg(test)]
mod closed;
#[cfg(test)]
mod judges;
#[cfg(test)]
mod merges;
#[cfg(test)]
mod told;
