//! What is only run of tables of groups: updates, tables, members and queries.
#![tactic(auto)]

#[cfg(test)]
mod answers;
#[cfg(test)]
mod change;
#[cfg(test)]
mod ended;
#[cfg(test)]
mod examples;
#[cfg(test)]
mod groups;
#[cfg(test)]
mod histories;
#[cfg(test)]
mod many;
#[cfg(test)]
mod members;
#[cfg(test)]
mod memory;
#[cfg(test)]
mod queries;
#[cfg(test)]
mod random;
#[cfg(test)]
mod reading;
#[cfg(test)]
mod samples;
#[cfg(test)]
mod trial;
