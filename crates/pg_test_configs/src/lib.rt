//! What is only run of configurations, and of worlds over packets.
#![tactic(auto)]

/// What is told of the value of a call, which is let go then, or else another thing.
#[cfg(test)]
macro_rules! with {
    ($call:expr, $value:ident => $told:expr, else $other:expr) => {
        match $call {
            Ok($value) => {
                let told = $told;
                drop($value);
                told
            }
            Err(_) => $other,
        }
    };
}

#[cfg(test)]
mod configs;
#[cfg(test)]
mod worlds;
