//! The front of the language, called as its callers do: one table for each crate.
#![tactic(auto)]

#[cfg(test)]
mod lexing;
#[cfg(test)]
mod literals;
#[cfg(test)]
mod mentions;
#[cfg(test)]
mod nodes;
#[cfg(test)]
mod parsing;
#[cfg(test)]
mod trees;
