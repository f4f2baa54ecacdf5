//! What is only run of ends and exchanges: processes and their ends, who has ended, and how a node forms.
#![tactic(auto)]

#[cfg(test)]
mod ended;
#[cfg(test)]
mod ends;
#[cfg(test)]
mod exchanges;
#[cfg(test)]
mod many;
#[cfg(test)]
mod pids;
#[cfg(test)]
mod verdicts;
