//! The tests that the worked rows and other whole runs give what they must, in a crate above `tb_top`, since a crate with tests
//! is proved twice.
#![tactic(auto)]

#[cfg(test)]
mod top;
