// What is written out: group numbers, nodes, arguments as text, and edit lines.
#![tactic(auto)]

pub mod argument_text;
pub mod decimal;
pub mod edit_lines;
pub mod group;
pub mod refusal;
pub mod symbol;
pub mod text;
