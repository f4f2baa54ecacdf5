//! What is only run of clusters: that commands are answered, that nodes run at once, are lost, go on where memory is refused.
#![tactic(auto)]

/// What is told of the value of a call, which is let go then, or else another thing.
#[cfg(test)]
macro_rules! with {
    ($call:expr, $has:ident $value:ident => $told:expr, else $other:expr) => {
        match $call {
            $has($value) => {
                let told = $told;
                drop($value);
                told
            }
            _ => $other,
        }
    };
}

#[cfg(test)]
mod conversation;
#[cfg(test)]
mod gates;
#[cfg(test)]
mod losses;
#[cfg(test)]
mod memory;
#[cfg(test)]
mod rows;
#[cfg(test)]
mod setting;
