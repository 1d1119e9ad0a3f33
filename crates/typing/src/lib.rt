// The typing reading: types, forms, and the most general typing of a rule.
#![tactic(auto)]

pub mod cell;
pub mod head;
pub mod theorems;
