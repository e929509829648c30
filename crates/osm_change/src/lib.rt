//! Works with changes: lays them over the entities of a stream, or keeps the last one of each key.
#![tactic(auto)]

mod apply;
mod laws;
mod phase;
mod simplify;

pub use apply::{Apply, Changes};
pub use laws::{
    applies_are_lawful, applies_grow, simplifies_grow, simplifies_keep_the_last,
    simplifies_keep_their_rule,
};
pub use simplify::Simplify;
