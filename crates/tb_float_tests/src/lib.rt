//! The tests of floats, areas, columns and marginal notes, apart from their crates, since a crate with tests is proved twice.
#![tactic(auto)]

#[cfg(test)]
mod area;
#[cfg(test)]
mod column;
#[cfg(test)]
mod float;
#[cfg(test)]
mod fpage;
#[cfg(test)]
mod given;
#[cfg(test)]
mod margin;
