//! Operations on values and cells, called as their callers do, with ample memory: one table for each crate.
#![tactic(auto)]

#[cfg(test)]
mod builtins;
#[cfg(test)]
mod dicts;
#[cfg(test)]
mod lists;
#[cfg(test)]
mod names;
#[cfg(test)]
mod operators;
#[cfg(test)]
mod printing;
#[cfg(test)]
mod service;
#[cfg(test)]
mod sorting;
#[cfg(test)]
mod text_calls;
