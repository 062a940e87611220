//! The tests of numbers, lists, sums, breaks and packing, apart from their crates, since a crate with tests is proved twice.
#![tactic(auto)]

#[cfg(test)]
mod breaks;
#[cfg(test)]
mod node;
#[cfg(test)]
mod pack;
#[cfg(test)]
mod pool;
#[cfg(test)]
mod scaled;
