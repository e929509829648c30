//! The machine of the task tag-filter. It judges each item as it comes, and holds at most the one
//! message that it has to give next.
ghost use Rattle.std.specs.Prelude.{◌≡◌, if◌then◌else◌, IfOk, IsOk, OnOk, Some, None};
ghost use Rattle.osm_entity.specs.Calls.{Gives, Takes};
ghost use Rattle.osm_entity.specs.Machines.{IsNew, IsSameTask};
ghost use Rattle.osm_entity.specs.OneInput.{meanings_of};
ghost use Rattle.osm_entity.specs.declared.stream.Message.TheVariants.{Item as One};
ghost use Rattle.osm_entity.specs.declared.stream.Want.TheVariants.{Take, Give};
ghost use Rattle.osm_filter.specs.Filters.{filter_keeps};
ghost use Rattle.osm_filter.specs.Filtering.{filtering};

use crate::matching::{is_match, is_of};
use osm_entity::{End, Entity, Item, Kind, Message, NoMemory, TagTests, Verdict, Want};
use std::marker::Model;

/// Passes on the items of a stream that its tests choose, in their order, and then its end.
#[derive(Drop)]
pub struct TagFilter {
    accept: bool,
    kind: Kind,
    tests: TagTests,
    /// What it has to give.
    held: Option<Message>,
    /// The end that came.
    end: Option<End>,
}

impl Model for TagFilter {
    ghost use Rattle.osm_filter.specs.Filtering.{FilterValue};

    ghost Value = { FilterValue };

    ghost view = { λ f. record {
      options = record { accept = f.accept; kind = f.kind; tests = f.tests };
      held = f.held;
      end = f.end;
    } };
}

impl TagFilter {
    /// A filter that took nothing yet. Of the entities of a kind it keeps those that match its
    /// tests, where it accepts, or those that don't, where it rejects. It takes no memory.
    pub fn new(accept: bool, kind: Kind, tests: TagTests) -> Result<TagFilter, NoMemory>
        ensures new { IfOk result (IsNew (meanings_of filtering)) }
        ensures options { IfOk result (λ f.
            f.options ≡ record { accept = accept; kind = kind; tests = tests }) }
        ensures ok { IsOk result }
    {
        Ok(TagFilter {
            accept,
            kind,
            tests,
            held: None,
            end: None,
        })
    }

    /// Whether it passes an entity on. It takes no memory.
    pub fn keeps(&self, entity: &Entity) -> bool
        ensures { result ≡ filter_keeps self.now.options entity.now }
    {
        !is_of(self.kind, &entity.body)
            || is_match(self.tests.as_slice(), entity.tags.as_slice()) == self.accept
    }

    /// What it can do next. Its ports are 0.
    pub fn want(&self) -> Want
        ensures { result ≡ filtering.wanted self.now }
    {
        match (&self.held, self.end) {
            (Some(_), _) => Want::Give(0),
            (None, None) => Want::Take(0),
            (None, Some(_)) => Want::Ended,
        }
    }

    fn passed(&self, item: Item) -> Option<Message>
        ensures { result
            ≡ (if filter_keeps self.now.options item.entity then Some (One item) else None) }
    {
        if self.keeps(&item.entity) {
            Some(Message::Item(item))
        } else {
            None
        }
    }

    /// Takes a message, where it wants that. It takes no memory.
    pub fn accept(&mut self, port: u32, message: Message) -> Result<(), NoMemory>
        requires { filtering.wanted self.old ≡ Take port }
        ensures takes { Takes (meanings_of filtering) port message self.old self.new }
        ensures same { IsSameTask (meanings_of filtering) self.old self.new }
        ensures ok { IsOk result }
    {
        match message {
            Message::Item(item) => {
                self.held = self.passed(item);
                Ok(())
            }
            Message::End(end) => {
                self.held = Some(Message::End(end));
                self.end = Some(end);
                Ok(())
            }
        }
    }

    /// Gives a message, where it wants that. It takes no memory.
    pub fn hand(&mut self, port: u32) -> Message
        requires { filtering.wanted self.old ≡ Give port }
        ensures gives { Gives (meanings_of filtering) port result self.old self.new }
        ensures same { IsSameTask (meanings_of filtering) self.old self.new }
    {
        match self.held.take() {
            Some(message) => message,
            None => unreachable!(),
        }
    }

    /// How it stands with it: running until it gave its end, and then clean or passed.
    pub fn verdict(&self) -> Verdict
        ensures { result ≡ filtering.verdict self.now }
    {
        match (&self.held, self.end) {
            (Some(_), _) => Verdict::Running,
            (None, None) => Verdict::Running,
            (None, Some(end)) => Verdict::after(end),
        }
    }
}
