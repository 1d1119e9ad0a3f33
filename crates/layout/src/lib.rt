// The layout of a sheet file: group numbers, spelled and read, nodes, and whole files, read.
#![tactic(auto)]

pub mod group;
pub mod scan;
pub mod symbol_bytes;
