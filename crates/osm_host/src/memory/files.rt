//! Files in memory: a list of names with bytes, of which the first of a name counts.
ghost use Rattle.std.specs.Prelude.{◌≡◌, ℕ, List, [], Some, None, OnOk, OnErr, MatchOption, position};
ghost use Rattle.std.specs.FinMap as map;
ghost use Rattle.std.specs.Str.{bytes_eq};
ghost use Rattle.osm_host.specs.Held.{files_of};

use crate::naming::{Named, position_of};
use osm_entity::{Bytes, NoMemory, Sequence, Text};

/// A file in memory.
#[derive(Debug, Drop)]
pub struct FileHeld {
    pub name: Text,
    pub bytes: Bytes,
}

/// Files in memory, in any order.
pub type Files = Sequence<FileHeld>;

impl Named for FileHeld {
    ghost name = { λ f. f.name };

    fn name(&self) -> &Text {
        &self.name
    }
}

/// The bytes of the file of this name. `None` exactly where there is no such file.
pub(crate) fn bytes_of<'a>(files: &'a [FileHeld], name: &Text) -> Option<&'a Bytes>
    ensures { MatchOption result
        (map.get (files_of files.now) name.now ≡ None)
        (λ bytes. map.get (files_of files.now) name.now ≡ Some bytes.now) }
{
    match position_of(files, name) {
        Some(at) => Some(&files[at].bytes),
        None => None,
    }
}

/// Makes these bytes the file of this name. Only a new name takes memory; at `Err` no file changed.
pub(crate) fn put_file(files: &mut Files, name: Text, bytes: Bytes) -> Result<(), NoMemory>
    ensures ok { OnOk result (files_of files.new ≡ map.insert (files_of files.old) name bytes) }
    ensures err { OnErr result (files.new ≡ files.old) }
{
    match position_of(files.as_slice(), &name) {
        Some(at) => {
            files.set(at, FileHeld { name, bytes });
            Ok(())
        }
        None => files.push(FileHeld { name, bytes }),
    }
}
