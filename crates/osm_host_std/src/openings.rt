//! Which files were opened, so that one file under two names is not read and written at once.
ghost use Rattle.std.specs.Prelude.{◌≡◌, ◌<◌, ◌↔◌, [], true, vec_len, vec_capacity, IsTrue, IsSome, Ok, IfOk, OnOk, OnErr};
ghost use Rattle.std.specs.Fs.{file_type, IsFile, new_options, with_write, with_create};
ghost use Rattle.osm_host_std.specs.Opened.{IsAmong, IsFree, AddsSource, AddsSink, SameOpenings};

use osm_entity::NoMemory;
use osm_host::Failed;
use std::alloc::Global;
use std::fs::{Metadata, OpenFile, OpenOptions};
use std::io;
use std::os::unix::fs::MetadataExt;
use std::rt::Files;

/// A regular file of the system: its device, and its number on that device.
#[derive(Clone, Copy, PartialEq, Eq)]
pub struct Identity {
    device: u64,
    inode: u64,
}

/// A file that was just opened, and which one it is: nothing where it is no regular file, as a
/// pipe, a terminal or `/dev/null`.
#[derive(Drop)]
pub(crate) struct Opened<F> {
    file: F,
    identity: Option<Identity>,
}

/// The regular files that were opened, also those that were closed since.
#[derive(Drop)]
pub struct Openings {
    read: Vec<Identity>,
    written: Vec<Identity>,
}

// Which regular file this is.
fn identity_of(metadata: &Metadata) -> Option<Identity>
    ensures { IsSome result ↔ IsFile (file_type metadata.now) }
{
    if !metadata.is_file() {
        return None;
    }
    Some(Identity {
        device: metadata.dev(),
        inode: metadata.ino(),
    })
}

// Looks which file was opened.
fn look<F: OpenFile + Drop>(opening: io::Result<F>) -> Result<Opened<F>, Failed>
    ensures { IfOk result (λ opened. opening ≡ Ok opened.file) }
{
    let Ok(file) = opening else {
        return Err(Failed);
    };
    match file.metadata() {
        Ok(metadata) => Ok(Opened {
            file,
            identity: identity_of(&metadata),
        }),
        Err(_) => Err(Failed),
    }
}

// To be written, and made where there is none. What it holds stays until it was looked at.
fn for_writing() -> OpenOptions
    ensures { result ≡ with_create (with_write new_options true) true }
{
    let mut options = OpenOptions::new();
    options.write(true).create(true);
    options
}

// Whether these have the file. What is no regular file is in none.
fn has(files: &[Identity], identity: Option<Identity>) -> bool
    ensures { IsTrue result ↔ IsAmong files.now identity }
{
    match identity {
        Some(identity) => files.contains(&identity),
        None => false,
    }
}

impl<F> Opened<F> {
    /// Which regular file it is.
    pub(crate) fn identity(&self) -> Option<Identity>
        ensures { result ≡ self.now.identity }
    {
        self.identity
    }

    /// The file.
    pub(crate) fn into_file(self) -> F
        ensures { result ≡ self.file }
    {
        self.file
    }
}

impl Openings {
    /// No file was opened yet. It takes no memory.
    pub(crate) fn new(alloc: Global) -> Openings
        ensures read { result.read.items ≡ [] }
        ensures written { result.written.items ≡ [] }
    {
        Openings {
            read: Vec::new(alloc),
            written: Vec::new(alloc),
        }
    }

    /// Takes the memory of one opening more.
    pub(crate) fn reserve(&mut self) -> Result<(), NoMemory>
        ensures same { SameOpenings self.old self.new }
        ensures read { OnOk result (vec_len self.new.read < vec_capacity self.new.read) }
        ensures written { OnOk result (vec_len self.new.written < vec_capacity self.new.written) }
    {
        match self.read.reserve(1) {
            Ok(()) => {}
            Err(_) => return Err(NoMemory),
        }
        match self.written.reserve(1) {
            Ok(()) => Ok(()),
            Err(_) => Err(NoMemory),
        }
    }

    /// Opens a file to be read. `Failed` where the system doesn't open it, and where it was opened
    /// to be written, under any name.
    pub(crate) fn open_source<R: Files>(
        &mut self,
        rt: &R,
        path: &str,
    ) -> Result<Opened<R::File>, Failed>
        requires room { vec_len self.old.read < vec_capacity self.old.read }
        ensures ok { IfOk result (λ opened. AddsSource self.old self.new opened.identity) }
        ensures err { OnErr result (SameOpenings self.old self.new) }
    {
        let opened = look(OpenOptions::new().read(true).open(rt, path))?;
        if has(self.written.as_slice(), opened.identity) {
            return Err(Failed);
        }
        if let Some(identity) = opened.identity {
            self.read.push_reserved(identity);
        }
        Ok(opened)
    }

    /// Opens a file to be written, makes it where there is none, and empties it where it is a
    /// regular file. `Failed` where the system refuses that, and where it was opened before, under
    /// any name; it then holds what it held.
    pub(crate) fn open_sink<R: Files>(
        &mut self,
        rt: &R,
        path: &str,
    ) -> Result<Opened<R::File>, Failed>
        requires room { vec_len self.old.written < vec_capacity self.old.written }
        ensures ok { IfOk result (λ opened. AddsSink self.old self.new opened.identity) }
        ensures err { OnErr result (SameOpenings self.old self.new) }
    {
        let opened = look(for_writing().open(rt, path))?;
        if has(self.read.as_slice(), opened.identity)
            || has(self.written.as_slice(), opened.identity)
        {
            return Err(Failed);
        }
        self.empty(&opened)?;
        Ok(opened)
    }

    // Empties a file that wasn't opened before, and notes that it is written.
    fn empty<F: OpenFile>(&mut self, opened: &Opened<F>) -> Result<(), Failed>
        requires room { vec_len self.old.written < vec_capacity self.old.written }
        requires free { IsFree self.old opened.now.identity }
        ensures ok { OnOk result (AddsSink self.old self.new opened.now.identity) }
        ensures err { OnErr result (SameOpenings self.old self.new) }
    {
        if let Some(identity) = opened.identity {
            if opened.file.set_len(0).is_err() {
                return Err(Failed);
            }
            self.written.push_reserved(identity);
        }
        Ok(())
    }
}
