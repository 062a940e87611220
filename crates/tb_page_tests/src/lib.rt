//! The tests of the page builder, of the account of its insertions and of plain TeX's routine, apart from their crates, since a
//! crate with tests is proved twice.
#![tactic(auto)]

#[cfg(test)]
mod account;
#[cfg(test)]
mod arrivals;
#[cfg(test)]
mod builder;
#[cfg(test)]
mod nodes;
#[cfg(test)]
mod plain;
