//! The bytes that were pulled and not read yet, and the lines that come off their beginning.
//!
//! A line that lies whole in one piece is read where the pull put it. Only the beginning of a line
//! that goes on in the next piece is copied, and newlines are looked for in new bytes alone. At a
//! pull before all lines were taken off, what is left moves to the beginning of the buffer, which
//! then has room for a piece behind that.
ghost use Rattle.std.specs.Prelude.{◌≡◌, ◌+◌, ◌≤◌, ◌<◌, ◌++◌, [], length, min, take, drop, vec_len, ◌-◌, ◌≢◌, IfOk, IfNone, IfSome, IsOk, OnOk, OnErr, Ok, Err, IsTrue, ◌↔◌};
ghost use Rattle.std.specs.Io.KnownBytes.{IsAtEnd};
ghost use Rattle.osm_host.specs.Contents.{PullGives};
ghost use Rattle.osm_host.specs.Counts.{raised, CountsFailure, CountsRefusal};
ghost use Rattle.osm_host.specs.Pulls.{piece_size};
ghost use Rattle.osm_host.specs.declared.outside.HostError.TheVariants.{Failed, Memory};
ghost use Rattle.osm_opl_line.specs.Line.{longest_line};
ghost use Rattle.osm_opl.specs.Unread.{EndsAt, HasNoNewline, IsUnread, UnreadValue, first_line, unread_bytes, left_past};
ghost use Rattle.osm_opl.specs.Found.{Filled, FoundIn};

use osm_entity::{Bytes, NoMemory};
use osm_host::{Failed as PullFailed, HostError, PIECE_SIZE, Source};
use osm_text::first_part;
use std::alloc::Global;
use std::marker::Model;

/// The most bytes of a line.
const LONGEST_LINE: usize = 16_777_216;

/// What the unread bytes begin with.
#[derive(Clone, Copy)]
pub(crate) enum Found {
    /// A line.
    Line {
        /// Its bytes in the piece, where nothing is held; else it is what is held.
        count: usize,
        /// The bytes of the piece that it takes with its newline.
        past: usize,
    },
    /// A line that is too long, whether it is at its end or not, and the bytes of the piece that
    /// it takes.
    TooLong(usize),
    /// A line that isn't at its end, or nothing.
    Unfinished,
}

/// The bytes that were pulled and not read yet.
#[derive(Drop)]
pub(crate) struct Unread {
    /// The beginning of a line that goes on in the buffer.
    held: Bytes,
    /// What pulls gave.
    buffer: Vec<u8>,
    /// The part of the buffer that wasn't read yet begins here.
    start: usize,
    /// It stops before this place.
    stop: usize,
}

impl Model for Unread {
    ghost use Rattle.osm_opl.specs.Unread.{UnreadValue};

    ghost Value = { UnreadValue };

    ghost use Rattle.osm_opl.specs.UnreadSeen.{unread_seen, IsPlaced};

    ghost view = { unread_seen };

    ghost invariant = { IsPlaced };
}

// Room for what one pull gives.
fn new_buffer(alloc: Global) -> Result<Vec<u8>, NoMemory>
    ensures { IfOk result (λ v. vec_len v ≡ PIECE_SIZE) }
{
    match vec![in alloc; 0u8; PIECE_SIZE] {
        Ok(buffer) => Ok(buffer),
        Err(_) => Err(NoMemory),
    }
}

// The lesser of the two.
fn at_most(count: usize, room: u64) -> usize
    ensures { result ≡ min room count }
{
    if count as u64 > room {
        room as usize
    } else {
        count
    }
}

// Moves the bytes from `start` to `stop` to the beginning of the buffer, and makes room for a piece
// behind them. At `Err` the buffer is as it was.
fn make_room(buffer: &mut Vec<u8>, start: usize, stop: usize) -> Result<(), NoMemory>
    requires ordered { start ≤ stop }
    requires within { stop ≤ vec_len buffer.old }
    ensures moved { OnOk result (take (stop - start) buffer.new.items
        ≡ take (stop - start) (drop start buffer.old.items)) }
    ensures room { OnOk result ((stop - start) + PIECE_SIZE ≤ vec_len buffer.new) }
    ensures err { OnErr result (buffer.new.items ≡ buffer.old.items) }
    ensures ok { (stop - start) + PIECE_SIZE ≤ vec_len buffer.old → IsOk result }
{
    let count = stop - start;
    let room = count.saturating_add(PIECE_SIZE);
    if buffer.len() < room {
        match buffer.resize(room, 0) {
            Ok(()) => {}
            Err(_) => return Err(NoMemory),
        }
    }
    buffer.as_mut_slice().copy_within(start..stop, 0);
    Ok(())
}

// Pulls once into the buffer, behind its first `count` bytes.
fn pull_behind<S: Source>(
    buffer: &mut Vec<u8>,
    count: usize,
    source: &mut S,
) -> Result<usize, PullFailed>
    requires { count + PIECE_SIZE ≤ vec_len buffer.old }
    ensures name { S.name source.new ≡ S.name source.old }
    ensures len { vec_len buffer.new ≡ vec_len buffer.old }
    ensures same { take count buffer.new.items ≡ take count buffer.old.items }
    ensures gives { PullGives result (drop count buffer.new.items)
        (S.rest source.old) (S.rest source.new) }
    ensures small { IfOk result (λ n. n ≤ piece_size) }
    ensures end { result ≡ Ok 0 → IsAtEnd (S.rest source.new) }
    ensures given { IfOk result (λ n. S.given source.new ≡ raised (S.given source.old) n) }
    ensures idle { OnErr result (S.given source.new ≡ S.given source.old) }
    ensures faults { CountsFailure result (S.faults source.old) (S.faults source.new) }
{
    source.pull(&mut buffer[count..count + PIECE_SIZE])
}

impl Unread {
    /// No bytes.
    pub(crate) fn new(alloc: Global) -> Result<Unread, NoMemory>
        ensures { IfOk result (λ u. u ≡ record { held = []; piece = [] }) }
    {
        Ok(Unread {
            held: Bytes::new(alloc),
            buffer: new_buffer(alloc)?,
            start: 0,
            stop: 0,
        })
    }

    /// What it keeps.
    pub(crate) fn kept(&self)
        ensures { IsUnread self.now }
    {
        let _start = &self.start;
    }

    /// Whether there is no byte.
    pub(crate) fn is_empty(&self) -> bool
        ensures { IsTrue result ↔ unread_bytes self.now ≡ [] }
    {
        self.held.len() == 0 && self.start == self.stop
    }

    /// Pulls once, and keeps of what comes as much as there is room for, behind what it has. At
    /// `Memory`, which comes only where it has bytes of earlier pulls, nothing was pulled.
    pub(crate) fn pull<S: Source>(&mut self, source: &mut S, room: u64) -> Result<usize, HostError>
        ensures name { S.name source.new ≡ S.name source.old }
        ensures filled { IfOk result
            (λ count. Filled S.rest source.old source.new room count self.old self.new) }
        ensures small { IfOk result (λ count. count ≤ piece_size) }
        ensures err { OnErr result (self.new ≡ self.old) }
        ensures left { OnErr result (S.rest source.new ≡ S.rest source.old) }
        ensures end { result ≡ Ok 0 → IsAtEnd (S.rest source.new) }
        ensures given { IfOk result (λ n. S.given source.new ≡ raised (S.given source.old) n) }
        ensures idle { OnErr result (S.given source.new ≡ S.given source.old) }
        ensures faults { CountsRefusal result (S.faults source.old) (S.faults source.new) }
        ensures memory { result ≡ Err Memory → source.new ≡ source.old }
        ensures ok { self.old.piece ≡ [] → result ≢ Err Memory }
    {
        let left = self.stop - self.start;
        make_room(&mut self.buffer, self.start, self.stop)?;
        self.start = 0;
        self.stop = left;
        match pull_behind(&mut self.buffer, left, source) {
            Ok(more) => {
                self.stop = left + at_most(more, room);
                Ok(more)
            }
            Err(_) => Err(HostError::Failed),
        }
    }

    /// Finds the first line. At `Err` it is as it was.
    pub(crate) fn find_line(&mut self) -> Result<Found, NoMemory>
        ensures found { IfOk result (λ found. FoundIn self.old self.new found) }
        ensures err { OnErr result (self.new ≡ self.old) }
    {
        match self.line_length() {
            Some(count) => self.find_whole(count),
            None => self.find_unfinished(),
        }
    }

    /// The first line: what is held, or the first `count` bytes of the piece.
    pub(crate) fn line(&self, count: usize) -> &[u8]
        requires within { count ≤ length self.now.piece }
        requires apart { self.now.held ≢ [] → count ≡ 0 }
        ensures { result.now ≡ first_line self.now count }
    {
        if self.held.len() == 0 {
            &self.buffer[self.start..self.start + count]
        } else {
            self.held.as_slice()
        }
    }

    // How many bytes of the piece stand before its first newline.
    fn line_length(&self) -> Option<usize>
        ensures none { IfNone result (HasNoNewline self.now.piece) }
        ensures some { IfSome result (λ count. EndsAt self.now.piece count) }
    {
        match first_part(&self.buffer[self.start..self.stop], b'\n') {
            Some((line, _)) => Some(line.len()),
            None => None,
        }
    }

    // Finds a line whose newline stands in the piece behind `count` bytes. One that began in
    // earlier pieces is held as a whole.
    fn find_whole(&mut self, count: usize) -> Result<Found, NoMemory>
        requires { EndsAt self.old.piece count }
        ensures found { IfOk result (λ found. FoundIn self.old self.new found) }
        ensures err { OnErr result (self.new ≡ self.old) }
    {
        if self.held.len() + count > LONGEST_LINE {
            return Ok(Found::TooLong(count + 1));
        }
        if self.held.len() == 0 {
            return Ok(Found::Line {
                count,
                past: count + 1,
            });
        }
        self.hold(count)?;
        Ok(Found::Line { count: 0, past: 1 })
    }

    // Holds the piece, which ends no line, unless that is too much for a line.
    fn find_unfinished(&mut self) -> Result<Found, NoMemory>
        requires { HasNoNewline self.old.piece }
        ensures found { IfOk result (λ found. FoundIn self.old self.new found) }
        ensures err { OnErr result (self.new ≡ self.old) }
    {
        let count = self.stop - self.start;
        if self.held.len() + count > LONGEST_LINE {
            return Ok(Found::TooLong(count));
        }
        self.hold(count)?;
        Ok(Found::Unfinished)
    }

    // Holds the first `count` bytes of the piece.
    fn hold(&mut self, count: usize) -> Result<(), NoMemory>
        requires fits { count ≤ length self.old.piece }
        requires unended { HasNoNewline (take count self.old.piece) }
        requires short { length self.old.held + count ≤ longest_line }
        ensures ok { OnOk result (self.new ≡ record {
          held = self.old.held ++ take count self.old.piece;
          piece = drop count self.old.piece;
        }) }
        ensures err { OnErr result (self.new ≡ self.old) }
    {
        let first = &self.buffer[self.start..self.start + count];
        self.held.append(first)?;
        self.start += count;
        Ok(())
    }

    /// Drops what is held, and the first `count` bytes of the piece.
    pub(crate) fn pass_over(&mut self, count: usize)
        requires { count ≤ length self.old.piece }
        ensures { self.new ≡ left_past self.old count }
    {
        self.held.truncate(0);
        self.start += count;
    }
}
