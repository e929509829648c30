//! The task apply-change: changes laid over the entities of a stream.
ghost use Rattle.std.specs.Prelude.{◌≡◌, IsOk, IfOk};
ghost use Rattle.osm_change.specs.Applying.{applying};
ghost use Rattle.osm_change.specs.Changes.{laid_over, laid_over_is_choice, put_change};
ghost use Rattle.osm_entity.specs.Calls.{Takes, Gives};
ghost use Rattle.osm_entity.specs.Machines.{IsNew, IsSameTask};
ghost use Rattle.osm_entity.specs.declared.stream.Want.TheVariants.{Take, Give};
ghost use Rattle.osm_merge.specs.TwoInputs.{meanings_of_two};

use osm_entity::{Act, Item, Message, NoMemory, Verdict, Want};
use osm_merge::{Chooser, Heads};

/// Chooses between the entity of a base and a change of it.
#[derive(Debug, Drop)]
pub struct Changes;

/// The entity that a change puts, if it puts one.
fn put(change: Item) -> Option<Item>
    ensures { result ≡ put_change change }
{
    let Item { act, entity } = change;
    match act {
        Act::Delete => None,
        _ => Some(Item {
            act: Act::Keep,
            entity,
        }),
    }
}

impl Chooser for Changes {
    ghost chosen = { λ c. laid_over };

    fn choose(&self, first: Option<Item>, second: Option<Item>) -> Option<Item> {
        match second {
            None => first,
            Some(change) => put(change),
        }
    }

    ghost good = { λ c. laid_over_is_choice };
}

/// The task `apply-change` over a stream of entities at input 0 and a stream of changes at input 1.
///
/// A change that creates or modifies an entity puts it, one that deletes it removes it, and a
/// delete of what isn't there does nothing. The output is a stream of entities by key. Both inputs
/// need keys that rise, as those of a merge.
#[derive(Debug, Drop)]
pub struct Apply {
    heads: Heads<Changes>,
}

impl Apply {
    /// An apply that took nothing. It takes no memory, and always answers `Ok`.
    pub fn new() -> Result<Apply, NoMemory>
        ensures ok { IsOk result }
        ensures new { IfOk result (IsNew (meanings_of_two applying)) }
    {
        Ok(Apply {
            heads: Heads::new(Changes),
        })
    }

    /// What it can do next.
    pub fn want(&self) -> Want
        ensures { result ≡ applying.wanted self.now }
    {
        self.heads.want()
    }

    /// Takes a message at a port that it wants. It takes no memory, and always answers `Ok`.
    pub fn accept(&mut self, port: u32, message: Message) -> Result<(), NoMemory>
        requires { applying.wanted self.old ≡ Take port }
        ensures ok { IsOk result }
        ensures takes { Takes (meanings_of_two applying) port message self.old self.new }
        ensures same { IsSameTask (meanings_of_two applying) self.old self.new }
    {
        self.heads.accept(port, message);
        Ok(())
    }

    /// Gives the message at a port that it wants. It takes no memory.
    pub fn hand(&mut self, port: u32) -> Message
        requires { applying.wanted self.old ≡ Give port }
        ensures gives { Gives (meanings_of_two applying) port result self.old self.new }
        ensures same { IsSameTask (meanings_of_two applying) self.old self.new }
    {
        self.heads.hand(port)
    }

    /// Running until it has ended; then as a merge of its inputs.
    pub fn verdict(&self) -> Verdict
        ensures { result ≡ applying.verdict self.now }
    {
        self.heads.verdict()
    }
}
