//! The tasks used-node and used-way. One drops the nodes that no way and no relation of their
//! stream names, the other the ways that no relation names.
//!
//! Which entities are named is known only at the end of the stream, so all items are held until
//! then.
#![tactic(auto)]

mod giving;
mod ids;
mod laws;
mod naming;
mod node;
mod phase;
mod using;
mod way;

pub use laws::{used_machines_keep_their_rule, used_streams_grow};
pub use node::UsedNode;
pub use way::UsedWay;
