//! A queue between two tasks.
ghost use Rattle.std.specs.Prelude.{◌≡◌, ◌++◌, ◌∷◌, [], length, true, false, IsOk, IfOk, OnOk, OnErr, MatchOption};
ghost use Rattle.osm_net.specs.Nets.{FitsStore};
ghost use Rattle.osm_net.specs.Queues.{is_bounded, is_filled};

use osm_entity::{Message, NoMemory};
use osm_graph::Store;
use std::alloc::Global;
use std::collections::VecDeque;
use std::marker::Model;

/// The messages of a pipe that were given and not yet taken. It keeps: a queue of a bounded pipe
/// holds no more than the pipe's capacity, and has room for all of it from the start.
#[derive(Debug, Drop)]
pub struct Queue {
    messages: VecDeque<Message>,
    store: Store,
}

impl Model for Queue {
    ghost use Rattle.osm_net.specs.Queues.{IsReserved, QueueValue};
    ghost use Rattle.std.specs.VecDeque.{deque_capacity};

    ghost Value = { QueueValue };

    ghost view = { λ q. record { messages = q.messages.items; store = q.store } };

    ghost invariant = { λ q. IsReserved q.store q.messages.items (deque_capacity q.messages) };
}

impl Queue {
    /// An empty queue. That of a bounded pipe has room for its capacity.
    pub fn new(alloc: Global, store: Store) -> Result<Self, NoMemory>
        ensures { IfOk result (λ q. q ≡ record { messages = []; store = store }) }
    {
        let messages = match store {
            Store::Bounded(capacity) => match VecDeque::with_capacity(alloc, capacity as usize) {
                Ok(messages) => messages,
                Err(_) => return Err(NoMemory),
            },
            Store::Spool => VecDeque::new(alloc),
        };
        Ok(Queue { messages, store })
    }

    /// Whether it holds its capacity; a spool never does.
    pub fn is_full(&self) -> bool
        ensures { result ≡ is_filled self.now.store (length self.now.messages) }
    {
        match self.store {
            Store::Bounded(capacity) => capacity as usize <= self.messages.len(),
            Store::Spool => false,
        }
    }

    /// Adds a message at the back. Only a spool can be out of memory, and then it is as it was.
    pub fn give(&mut self, message: Message) -> Result<(), NoMemory>
        requires { is_filled self.old.store (length self.old.messages) ≡ false }
        ensures ok { OnOk result (self.new.messages ≡ self.old.messages ++ message ∷ []) }
        ensures err { OnErr result (self.new.messages ≡ self.old.messages) }
        ensures store { self.new.store ≡ self.old.store }
        ensures bounded { is_bounded self.old.store ≡ true → IsOk result }
    {
        match self.messages.push_back(message) {
            Ok(()) => Ok(()),
            Err(_) => Err(NoMemory),
        }
    }

    /// Takes the message that was given first of those that it holds. It takes no memory.
    pub fn take(&mut self) -> Option<Message>
        ensures message { MatchOption result ((self.old.messages ≡ []) × (self.new.messages ≡ []))
            (λ m. self.old.messages ≡ m ∷ self.new.messages) }
        ensures store { self.new.store ≡ self.old.store }
    {
        self.messages.pop_front()
    }

    /// What every queue keeps: it fits its store.
    pub fn kept(&self)
        ensures { FitsStore self.now.store (length self.now.messages) }
    {
        let _messages = &self.messages;
    }
}
