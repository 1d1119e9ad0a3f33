// Types as text.
#![tactic(auto)]

mod print;
pub mod theorems;
pub mod writer;
