//! What is only run of bytes on their way: frames, rings, two of them between real threads, diagrams that are written, and lines on a terminal.
#![tactic(auto)]

#[cfg(test)]
mod frames;
#[cfg(test)]
mod moves;
#[cfg(test)]
mod pictures;
#[cfg(test)]
mod progress;
#[cfg(test)]
mod rings;
#[cfg(test)]
mod rows;
