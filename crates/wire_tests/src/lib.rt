//! Bytes, frames, messages and wires, called as their callers do: one table for each crate.
#![tactic(auto)]

#[cfg(test)]
mod brine;
#[cfg(test)]
mod frames;
#[cfg(test)]
mod messages;
#[cfg(test)]
mod pairs;
#[cfg(test)]
mod reports;
#[cfg(test)]
mod wires;
