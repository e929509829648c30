//! Pipes between threads: what one half gives, the other takes, in order and each message once.
//!
//! A pipe is bounded, and its giver waits while it is full, or it is a spool, which grows. A giver
//! gives items and then one end. When both halves have come back, `meet` shows what was
//! taken beside what was sent.
#![tactic(auto)]

mod bell;
mod channels;
mod pipe;
mod rule;
mod spools;
mod store;
mod way;

pub use pipe::{Giver, Sent, Taken, Taker, bounded, meet, spool};
