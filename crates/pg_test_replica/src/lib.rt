//! What is only run of the replica: calls, stamps and exchanges as bytes, an input that is cut anywhere, and reads, writes and flushes that
//! fail.
#![tactic(auto)]

#[cfg(test)]
mod frames;
#[cfg(test)]
mod rows;
#[cfg(test)]
mod served;
#[cfg(test)]
mod turns;
