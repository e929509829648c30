//! The machine of a writer: it puts what it takes into its sink.
ghost use Rattle.std.specs.Prelude.{◌≡◌, [], ℕ, List, None, OnErr, OnOk, Option};
ghost use Rattle.osm_entity.specs.Calls.{StopsInTake, Takes};
ghost use Rattle.osm_entity.specs.Machines.{IsNew, IsSameTask};
ghost use Rattle.osm_entity.specs.declared.stream.Message.TheVariants.{Item as One, End as Last};
ghost use Rattle.osm_entity.specs.declared.stream.Want.TheVariants.{Take};
ghost use Rattle.osm_machine.specs.Sinks.{TookNothing, sink_seen};
ghost use Rattle.osm_machine.specs.Writers.{FileWrote, form_of};
ghost use Rattle.osm_machine.specs.Writing.{writing};
ghost use Rattle.osm_machine.specs.Written.{writer_task};

use crate::puts::Puts;
use crate::writer::FileWriter;
use osm_entity::{End, Item, Message, NoMemory, Verdict, Want};
use osm_host::Sink;
use std::alloc::Global;
use std::marker::Model;

/// Writes its input into a sink, with each message that it takes. Once a put failed it puts
/// nothing more, and takes its input to its end.
#[derive(Drop)]
pub struct Writing<K: Sink + Drop> {
    alloc: Global,
    writer: FileWriter,
    sink: K,
    puts: Puts,
    /// The end that came.
    end: Option<End>,
}

impl<K: Sink + Drop> Model for Writing<K> {
    ghost use Rattle.osm_machine.specs.Sinks.{sink_seen};
    ghost use Rattle.osm_machine.specs.Writing.{WritingValue};

    ghost Value = { WritingValue };

    ghost view = { λ m. record {
      writer = m.writer;
      sink = sink_seen K.name K.taken K.faults m.sink;
      puts = m.puts;
      end = m.end;
    } };
}

impl<K: Sink + Drop> Writing<K> {
    /// A machine that took nothing yet, over a sink that took nothing.
    pub fn new(alloc: Global, writer: FileWriter, sink: K) -> Writing<K>
        requires nothing { TookNothing (K.taken sink) }
        requires wrote { (first : Option (List ℕ)) → FileWrote writer first first [] }
        ensures new { IsNew writing result }
        ensures task { writing.task result ≡ writer_task (form_of writer) }
        ensures sink { result.sink ≡ sink_seen K.name K.taken K.faults sink }
    {
        Writing {
            alloc,
            writer,
            sink,
            puts: Puts::Good,
            end: None,
        }
    }

    pub fn want(&self) -> Want
        ensures { result ≡ writing.wanted self.now }
    {
        match self.end {
            None => Want::Take(0),
            Some(_) => Want::Ended,
        }
    }

    /// Takes a message, and puts what it brings. Out of memory it is not called again.
    pub fn accept(&mut self, port: u32, message: Message) -> Result<(), NoMemory>
        requires { writing.wanted self.old ≡ Take port }
        ensures takes { OnOk result (Takes writing port message self.old self.new) }
        ensures stops { OnErr result (StopsInTake writing port message self.old self.new) }
        ensures same { IsSameTask writing self.old self.new }
        ensures name { self.new.sink.name ≡ self.old.sink.name }
    {
        match message {
            Message::Item(item) => self.put(&item),
            Message::End(end) => self.close(end),
        }
    }

    // Puts what an item brings.
    fn put(&mut self, item: &Item) -> Result<(), NoMemory>
        requires { self.old.end ≡ None }
        ensures takes { OnOk result (Takes writing 0 (One item.now) self.old self.new) }
        ensures stops { OnErr result (StopsInTake writing 0 (One item.now) self.old self.new) }
        ensures same { IsSameTask writing self.old self.new }
        ensures name { self.new.sink.name ≡ self.old.sink.name }
    {
        if !self.puts.is_good() {
            return Ok(());
        }
        let put = self.writer.put(&mut self.sink, item);
        self.puts = Puts::after(put);
        self.puts.go_on()
    }

    // Puts what is left at the end.
    fn close(&mut self, end: End) -> Result<(), NoMemory>
        requires { self.old.end ≡ None }
        ensures takes { OnOk result (Takes writing 0 (Last end) self.old self.new) }
        ensures stops { OnErr result (StopsInTake writing 0 (Last end) self.old self.new) }
        ensures same { IsSameTask writing self.old self.new }
        ensures name { self.new.sink.name ≡ self.old.sink.name }
    {
        self.end = Some(end);
        if !self.puts.is_good() {
            return Ok(());
        }
        let put = self.writer.end(self.alloc, &mut self.sink, end);
        self.puts = Puts::after(put);
        self.puts.go_on()
    }

    pub fn verdict(&self) -> Verdict
        ensures { result ≡ writing.verdict self.now }
    {
        match (self.puts, self.end) {
            (Puts::Stopped, _) => Verdict::Memory,
            (Puts::Good, None) => Verdict::Running,
            (Puts::Refused, None) => Verdict::Running,
            (Puts::Good, Some(end)) => Verdict::after(end),
            (Puts::Refused, Some(_)) => Verdict::Write,
        }
    }

    /// Gives its sink back.
    pub fn finish(self) -> K
        ensures { sink_seen K.name K.taken K.faults result ≡ self.sink }
    {
        self.sink
    }
}
