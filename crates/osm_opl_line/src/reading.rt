//! Reads a line of an OPL file.
ghost use Rattle.std.specs.Prelude.{◌≡◌, IfOk};
ghost use Rattle.osm_opl_line.specs.Line.{opl_line};
ghost use Rattle.osm_opl_line.specs.Seen.{line_seen};

use crate::cutting::cut;
use osm_entity::{Cause, Flow, Item, NoMemory};
use std::alloc::Global;

/// What a line says.
#[derive(Debug, Drop)]
pub enum LineRead {
    /// Nothing: it is empty, holds only spaces and tabs, or begins with `#`.
    Skipped,
    Item(Item),
    Bad(Cause),
}

/// Reads a line of an OPL file of this flow. `NoMemory` where its item has no room.
pub fn read_line(alloc: Global, line: &[u8], flow: Flow) -> Result<LineRead, NoMemory>
    ensures { IfOk result (λ read. line_seen read ≡ opl_line flow line.now) }
{
    match cut(Some(alloc), line, flow) {
        Ok(Some(line)) => Ok(LineRead::Item(line.into_item(alloc)?)),
        Ok(None) => Ok(LineRead::Skipped),
        Err(cause) => Ok(LineRead::Bad(cause)),
    }
}
