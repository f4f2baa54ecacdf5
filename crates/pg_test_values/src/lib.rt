//! What is only run of terms and packets: their values, bytes, texts and faults, and memory that runs out.
#![tactic(auto)]

/// What is told of the value of a call, which is let go then, or the fault of the call.
#[cfg(test)]
macro_rules! with {
    ($call:expr, $value:ident => $told:expr) => {
        match $call {
            Ok($value) => {
                let told = $told;
                drop($value);
                told
            }
            Err(fault) => Err(fault.into()),
        }
    };
}

#[cfg(test)]
mod packets;
#[cfg(test)]
mod rows;
#[cfg(test)]
mod samples;
#[cfg(test)]
mod terms;
#[cfg(test)]
mod texts;
