//! What is only run of what a node keeps beside its table: references, locks, gathered replies, open commands and answers.
#![tactic(auto)]

/// Ends the test where something does not hold, and tells what. A call of a function, which is proved once.
#[cfg(test)]
macro_rules! check {
    ($rt:expr; $holds:expr) => {
        crate::samples::holds($rt, $holds, stringify!($holds))
    };
}

/// The value of a call, which is made a second time where memory was refused.
#[cfg(test)]
macro_rules! asked {
    ($rt:expr; $call:expr) => {
        match $call {
            Ok(value) => value,
            Err(_) => $call.expect($rt, stringify!($call)),
        }
    };
}

#[cfg(test)]
mod answers;
#[cfg(test)]
mod commands;
#[cfg(test)]
mod locks;
#[cfg(test)]
mod many;
#[cfg(test)]
mod references;
#[cfg(test)]
mod replies;
#[cfg(test)]
mod samples;
