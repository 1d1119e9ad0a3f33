// Typing strings read: how a subtree is typed, and where its form stands in the string.
#![tactic(auto)]

mod entries;
pub mod number;
pub mod outline;
mod reader;
mod status;
mod term;
pub mod theorems;
