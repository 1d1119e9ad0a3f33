// Tests of the readings and of the questions to them, apart from the libraries so that these are
// proved only once.
#![tactic(auto)]

#[cfg(test)]
mod names;
#[cfg(test)]
mod questions;
