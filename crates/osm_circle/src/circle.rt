//! Circles of pipes as lists of senses.
ghost use Rattle.std.specs.Prelude.{◌≡◌, ◌≤◌, ◌<◌, ◌++◌, ◌↔◌, IsTrue, length, take, drop};

use crate::bare::is_bare;
use arrayvec::ArrayVec;
use osm_graph::Graph;
use std::marker::Model;

/// A pipe of a graph, taken along or against it.
#[derive(Clone, Copy, Debug, Default, PartialEq, Eq)]
pub struct Sense {
    /// The pipe's number, from 0.
    pub pipe: u32,
    /// Whether it leads from the pipe's giver to its taker; else it leads back.
    pub along: bool,
}

/// A list of at most 128 senses, which a graph may have as a bare circle. It takes no memory.
#[derive(Debug, Drop, PartialEq)]
pub struct Circle {
    senses: ArrayVec<Sense, 128>,
}

impl Model for Circle {
    ghost use Rattle.std.specs.Prelude.{List};
    ghost use Rattle.osm_circle.specs.declared.circle.Sense.{Sense};

    ghost Value = { List Sense };

    ghost view = { λ c. c.senses.items };

    ghost inverse = { λ senses. record { senses = record { items = senses } } };
}

impl Circle {
    ghost use Rattle.osm_circle.specs.Circles.{IsBareCircle};

    /// The list of these senses, at most 128.
    pub fn of(senses: &[Sense]) -> Circle
        requires { length senses.now ≤ 128 }
        ensures { result ≡ senses.now }
    {
        let mut list = ArrayVec::new();
        for sense in senses {
            list.push(*sense);
        }
        Circle { senses: list }
    }

    /// The senses, in their order.
    pub fn as_slice(&self) -> &[Sense]
        ensures value { result.now ≡ self.now }
        ensures fits { length result.now ≤ 128 }
    {
        self.senses.as_slice()
    }

    /// Whether it is a bare circle of a graph: false also where it has a pipe that the graph hasn't
    /// and where its first sense isn't over its lowest pipe.
    pub fn is_bare(&self, graph: &Graph) -> bool
        ensures { IsTrue result ↔ IsBareCircle graph.now.pipes self.now }
    {
        is_bare(graph, self.senses.as_slice())
    }

    /// Puts the senses from `first` on before the others.
    pub(crate) fn turn(&mut self, first: usize)
        requires { first ≤ length self.old }
        ensures { self.new ≡ drop first self.old ++ take first self.old }
    {
        self.senses.rotate_left(first);
    }
}
