//! The tests of what a run makes of ends that fail, of inputs that are cut or come in pieces, and of words that are refused.
#![tactic(auto)]

#[cfg(test)]
mod cuts;
#[cfg(test)]
mod ends;
