//! The tests of the readers of galleys and of paragraphs, apart from their crates, since a crate with tests is proved twice.
#![tactic(auto)]

#[cfg(test)]
mod galley;
#[cfg(test)]
mod lines;
#[cfg(test)]
mod plans;
