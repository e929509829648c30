//! A file that is written until a write of it fails.
ghost use Rattle.std.specs.Prelude.{◌≡◌, true, false, OnOk, OnErr};
ghost use Rattle.std.specs.Io.KnownBytes.{Appends};
ghost use Rattle.osm_host_std.specs.Written.{AppendsPrefix};

use crate::transfers::write_whole;
use osm_host::Failed;
use std::io::Write;

/// A file, and whether a write of it failed. After that nothing more is written to it.
#[derive(Drop)]
pub(crate) struct Output<F> {
    file: F,
    has_failed: bool,
}

impl<F> Output<F> {
    /// An output over a file that was just opened.
    pub(crate) fn new(file: F) -> Output<F>
        ensures file { result.file ≡ file }
        ensures sound { result.has_failed ≡ false }
    {
        Output {
            file,
            has_failed: false,
        }
    }

    /// Whether a write of it failed.
    pub(crate) fn has_failed(&self) -> bool
        ensures { result ≡ self.now.has_failed }
    {
        self.has_failed
    }

    /// The file as it now is.
    pub(crate) fn into_file(self) -> F
        ensures { result ≡ self.file }
    {
        self.file
    }
}

impl<F: Write> Output<F> {
    /// Writes the bytes whole. At `Err` the file took a prefix of them, and nothing more may be
    /// written.
    pub(crate) fn write(&mut self, bytes: &[u8]) -> Result<(), Failed>
        requires sound { self.old.has_failed ≡ false }
        ensures ok { OnOk result
            (Appends (F.contents self.old.file) (F.contents self.new.file) bytes.now) }
        ensures err { OnErr result
            (AppendsPrefix (F.contents self.old.file) (F.contents self.new.file) bytes.now) }
        ensures sound { OnOk result (self.new.has_failed ≡ false) }
        ensures failed { OnErr result (self.new.has_failed ≡ true) }
    {
        let written = write_whole(&mut self.file, bytes);
        self.has_failed = written.is_err();
        written
    }
}
