//! The test of raw PBF files, of what no clause says and no run of a program shows: files that are
//! copied however their source cuts them, and up to a call that fails.
#![tactic(auto)]

#[cfg(test)]
mod files;
