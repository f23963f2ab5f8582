//! The crates of the disk over a stage in memory: what no clause says of them, and calls one after another.
#![tactic(auto)]

#[cfg(test)]
mod bases;
#[cfg(test)]
mod callers;
#[cfg(test)]
mod check;
#[cfg(test)]
mod completing;
#[cfg(test)]
mod layer;
#[cfg(test)]
mod making;
#[cfg(test)]
mod memory;
#[cfg(test)]
mod survey;
#[cfg(test)]
mod tables;
