//! What is only run of worlds of nodes: examples as steps, their prefixes, and random schedules, of which the headline is read slowly.
#![tactic(auto)]

#[cfg(test)]
mod examples;
#[cfg(test)]
mod memory;
#[cfg(test)]
mod prefixes;
#[cfg(test)]
mod random;
#[cfg(test)]
mod schedules;
#[cfg(test)]
mod slow;
