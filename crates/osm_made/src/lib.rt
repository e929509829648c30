//! Makes nodes, ways and relations out of numbers, for measuring, and sums up what came.
#![tactic(auto)]

mod generator;
mod laws;
mod making;
mod summing;

pub use generator::Made;
pub use laws::{
    a_million_made_items_sum_up, made_items_are_counted, made_items_are_summed,
    one_made_item_is_a_node, summaries_come_at_once,
};
pub use summing::Summary;
