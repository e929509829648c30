//! The end that a message is.
ghost use Rattle.std.specs.Prelude.{◌≡◌, ◌∷◌, []};
ghost use Rattle.osm_machine.specs.Copying.{end_taken};

use osm_entity::{End, Message};

/// The end that a message is; `None` where it is an item.
pub fn end_in(message: &Message) -> Option<End>
    ensures { result ≡ end_taken (message.now ∷ []) }
{
    match message {
        Message::Item(_) => None,
        Message::End(end) => Some(*end),
    }
}
