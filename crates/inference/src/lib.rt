// Working out the most general typing of a node by unification.
#![tactic(auto)]

mod base;
mod constrain;
mod cycle;
mod draft;
mod entries;
mod entry;
mod graph;
mod join;
mod lay;
pub mod meeting;
pub mod node;
mod outcome;
mod script;
mod solve;
mod table;
mod tally;
mod typing_string;
mod worklist;
mod writer;
