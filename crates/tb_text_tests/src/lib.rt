//! The tests of the calls that read and write texts, DVI files among them, in one crate, since a crate with tests is proved twice.
#![tactic(auto)]

#[cfg(test)]
mod dvi;
#[cfg(test)]
mod generator;
#[cfg(test)]
mod io;
#[cfg(test)]
mod param;
#[cfg(test)]
mod report;
#[cfg(test)]
mod text;
#[cfg(test)]
mod trace;
