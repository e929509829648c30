//! The words that every other crate speaks: texts and lists, entities and items, streams of
//! messages, the verdicts and options of tasks, and a count of steps.
#![tactic(auto)]

mod duplicating;
mod entity;
mod held;
mod holding;
mod item;
mod kind;
mod laws;
mod options;
mod parts;
mod ports;
mod sequence;
mod steps;
mod storage;
mod stream;
mod text;
mod verdict;
mod weighing;

pub use entity::Entity;
pub use held::Held;
pub use item::{Act, Item, Items};
pub use kind::{Flow, Key, Kind};
pub use laws::{before_is_an_order, keys_have_one_order, sorting_is_stable};
pub use options::{AreaOptions, Resolution, TagTest, TagTests, Texts};
pub use parts::{Body, Member, Members, Place, Refs, Tag, Tags};
pub use ports::{growing_rules_are_monotone, messages_are_their_stream, prefix_is_an_order};
pub use sequence::{Bytes, NoMemory, Sequence};
pub use steps::Steps;
pub use stream::{End, Message, Want};
pub use text::{Text, TextError};
pub use verdict::{Cause, Spot, Verdict};
pub use weighing::{GREATEST_WEIGHT, weight};
