//! The tests of networks, of what no clause says and no run of the program shows.
//!
//! A test function is proved like any other code, and a crate that has one is proved once more with
//! it. So each stands in a crate of its own, which has nothing else.
#![tactic(auto)]

#[cfg(test)]
mod stepping;
