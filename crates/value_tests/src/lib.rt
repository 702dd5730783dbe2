//! Values, numbers, texts and cells, called as their callers do: one table for each crate.
#![tactic(auto)]

#[cfg(test)]
mod ints;
#[cfg(test)]
mod plain;
#[cfg(test)]
mod quoting;
#[cfg(test)]
mod store;
#[cfg(test)]
mod texts;
#[cfg(test)]
mod values;
