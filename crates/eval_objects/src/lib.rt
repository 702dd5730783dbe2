//! Operations that are carried out where their receiver lives, behind their unit: those of functions, classes,
//! instances, bound methods, lists, ranges, dicts, views and iterators, and of what is no object.
#![tactic(auto)]

mod advancing;
mod attributes;
mod comparing;
mod exceptions;
mod functions;
mod iterators;
mod methods;
mod performing;
mod plain_receivers;
mod printing;
mod sources;
mod specials;
mod upcoming;

pub use performing::perform;
