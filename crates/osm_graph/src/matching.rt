//! Which output's pipe an input takes.
ghost use Rattle.std.specs.Prelude.{◌≡◌, position};
ghost use Rattle.osm_graph.specs.Matching.{is_pipe_named, is_closing, is_opening, matching_place, puts_named, source_place, takes_named};

use crate::port::Port;
use osm_entity::Text;

impl<'a> Port<'a> {
    // Whether it opens a pipe without a name.
    fn is_opening(&self) -> bool
        ensures { result ≡ is_opening self.now }
    {
        self.gives && self.name.is_none()
    }

    // Whether it closes a pipe without a name.
    fn is_closing(&self) -> bool
        ensures { result ≡ is_closing self.now }
    {
        !self.gives && self.name.is_none()
    }

    fn is_pipe_named(&self, name: &Text) -> bool
        ensures { result ≡ is_pipe_named name.now self.now.name }
    {
        match self.name {
            Some(other) => other.as_slice() == name.as_slice(),
            None => false,
        }
    }

    /// Whether it puts the pipe of this name.
    pub(crate) fn puts(&self, name: &Text) -> bool
        ensures { result ≡ puts_named name.now self.now }
    {
        self.gives && self.is_pipe_named(name)
    }

    /// Whether it takes the pipe of this name.
    pub(crate) fn takes(&self, name: &Text) -> bool
        ensures { result ≡ takes_named name.now self.now }
    {
        !self.gives && self.is_pipe_named(name)
    }
}

/// The place among the earlier ports of the output whose pipe an input takes.
pub(crate) fn source_place(earlier: &[Port], input: &Port) -> Option<usize>
    ensures { result ≡ source_place earlier.now input.now.name }
{
    match input.name {
        Some(name) => named_place(earlier, name),
        None => matching_place(earlier),
    }
}

fn named_place(earlier: &[Port], name: &Text) -> Option<usize>
    ensures { result ≡ position (puts_named name.now) earlier.now }
{
    earlier.iter().position(|port| port.puts(name))
}

// Goes back from the last port, and counts what opened and what closed on the way.
fn matching_place(earlier: &[Port]) -> Option<usize>
    ensures { result ≡ matching_place earlier.now }
{
    let mut opened = 0usize;
    let mut closed = 0usize;
    for place in (0..earlier.len()).rev() {
        let port = &earlier[place];
        if port.is_opening() {
            if opened == closed {
                return Some(place);
            }
            opened += 1;
        }
        if port.is_closing() {
            closed += 1;
        }
    }
    None
}
