//! What is only run of that which speaks with a cluster: that conversations are answered, and that a service replies to just its requests.
#![tactic(auto)]

#[cfg(test)]
mod conversation;
#[cfg(test)]
mod ends;
#[cfg(test)]
mod full;
#[cfg(test)]
mod members;
#[cfg(test)]
mod service;
#[cfg(test)]
mod verdicts;
