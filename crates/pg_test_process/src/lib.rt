//! What is only run of a node as a process: what its bodies and its log are as bytes, and the requests of a port.
#![tactic(auto)]

#[cfg(test)]
mod bodies;
#[cfg(test)]
mod configs;
#[cfg(test)]
mod logged;
#[cfg(test)]
mod passed;
#[cfg(test)]
mod ports;
#[cfg(test)]
mod said;
#[cfg(test)]
mod served;
#[cfg(test)]
mod sights;
