// What rules are made of: kinds of nodes, their arguments, and the refusals.
#![tactic(auto)]

pub mod argument;
pub mod fault;
pub mod kind;
pub mod label;
pub mod name;
