//! The tests of LaTeX's output routine, apart from its crate, since a crate with tests is proved twice.
#![tactic(auto)]

#[cfg(test)]
mod output;
