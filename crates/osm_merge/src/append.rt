//! Append-change: input 0, and then input 1.
ghost use Rattle.std.specs.Prelude.{◌≡◌, IsOk, IfOk};
ghost use Rattle.osm_entity.specs.Calls.{Takes, Gives};
ghost use Rattle.osm_entity.specs.Machines.{IsNew, IsSameTask};
ghost use Rattle.osm_entity.specs.declared.stream.Want.TheVariants.{Take, Give};
ghost use Rattle.osm_merge.specs.Append.{appending, end_appended};
ghost use Rattle.osm_merge.specs.TwoInputs.{meanings_of_two};

use osm_entity::{End, Message, NoMemory, Verdict, Want};

/// The task `append-change`: the items of input 0 and then those of input 1, in their order.
///
/// Behind a broken input 0 nothing of input 1 is given: it is taken to its end, and the output ends
/// Broken.
#[derive(Debug, Drop)]
pub struct Append {
    held: Option<Message>,
    first: Option<End>,
    second: Option<End>,
}

/// The end of the output, by those of the inputs.
fn appended_end(first: End, second: End) -> End
    ensures { result ≡ end_appended first second }
{
    match first {
        End::Done => second,
        End::Broken => End::Broken,
    }
}

impl Append {
    /// An append that took nothing. It takes no memory, and always answers `Ok`.
    pub fn new() -> Result<Append, NoMemory>
        ensures ok { IsOk result }
        ensures new { IfOk result (IsNew (meanings_of_two appending)) }
    {
        Ok(Append {
            held: None,
            first: None,
            second: None,
        })
    }

    /// What it can do next.
    pub fn want(&self) -> Want
        ensures { result ≡ appending.wanted self.now }
    {
        if self.held.is_some() {
            return Want::Give(0);
        }
        if self.first.is_none() {
            return Want::Take(0);
        }
        if self.second.is_none() {
            return Want::Take(1);
        }
        Want::Ended
    }

    /// Takes a message at a port that it wants. It takes no memory, and always answers `Ok`.
    pub fn accept(&mut self, port: u32, message: Message) -> Result<(), NoMemory>
        requires { appending.wanted self.old ≡ Take port }
        ensures ok { IsOk result }
        ensures takes { Takes (meanings_of_two appending) port message self.old self.new }
        ensures same { IsSameTask (meanings_of_two appending) self.old self.new }
    {
        match self.first {
            None => self.take_first(message),
            Some(end) => self.take_second(end, message),
        }
        Ok(())
    }

    fn take_first(&mut self, message: Message)
        requires { appending.wanted self.old ≡ Take 0 }
        ensures { Takes (meanings_of_two appending) 0 message self.old self.new }
    {
        match message {
            Message::Item(item) => self.held = Some(Message::Item(item)),
            Message::End(end) => self.first = Some(end),
        }
    }

    fn take_second(&mut self, first: End, message: Message)
        requires wanted { appending.wanted self.old ≡ Take 1 }
        requires first { self.old.first ≡ Some first }
        ensures { Takes (meanings_of_two appending) 1 message self.old self.new }
    {
        match message {
            Message::Item(item) => match first {
                End::Done => self.held = Some(Message::Item(item)),
                End::Broken => {}
            },
            Message::End(end) => {
                self.second = Some(end);
                self.held = Some(Message::End(appended_end(first, end)));
            }
        }
    }

    /// Gives the message at a port that it wants. It takes no memory.
    pub fn hand(&mut self, port: u32) -> Message
        requires { appending.wanted self.old ≡ Give port }
        ensures gives { Gives (meanings_of_two appending) port result self.old self.new }
        ensures same { IsSameTask (meanings_of_two appending) self.old self.new }
    {
        match self.held.take() {
            Some(message) => message,
            None => unreachable!(),
        }
    }

    /// Running until it has ended; then Clean where both inputs were whole, else Passed.
    pub fn verdict(&self) -> Verdict
        ensures { result ≡ appending.verdict self.now }
    {
        if self.held.is_some() {
            return Verdict::Running;
        }
        let Some(first) = self.first else {
            return Verdict::Running
        };
        let Some(second) = self.second else {
            return Verdict::Running
        };
        Verdict::after(appended_end(first, second))
    }
}
