//! What is only run of a node: its commands, and what its peers make of them.
#![tactic(auto)]

/// What is told of the value of a call, which is let go then, or else another thing.
#[cfg(test)]
macro_rules! with {
    ($call:expr, $has:ident $value:ident => $told:expr, else $other:expr) => {
        match $call {
            $has($value) => {
                let told = $told;
                drop($value);
                told
            }
            _ => $other,
        }
    };
}

#[cfg(test)]
mod begins;
#[cfg(test)]
mod changes;
#[cfg(test)]
mod memory;
#[cfg(test)]
mod nodes;
#[cfg(test)]
mod rows;
#[cfg(test)]
mod texts;
#[cfg(test)]
mod told;
