//! The device of a task, where it has one, and the file that a task reads or writes.
ghost use Rattle.std.specs.Prelude.{◌≡◌, ◌<◌, length, slice_index_or, slice_set};
ghost use Rattle.std.specs.Option.{option_copied};
ghost use Rattle.osm_run.specs.Commands.{all_kind_files, kind_files};
ghost use Rattle.osm_run.specs.Opened.{sink_name, source_name};
ghost use Rattle.osm_run.specs.Polygons.{polygon_name};
ghost use Rattle.osm_run.specs.declared.devices.Device.TheVariants.{Nothing};

use osm_entity::Text;
use osm_tasks::TaskKind;
use std::mem::replace;

/// The device of a task: the source of a reader, the sink of a writer, or none.
#[derive(Drop)]
pub enum Device<S, K> {
    Nothing,
    Reads(S),
    Writes(K),
}

/// The name of the file that a task reads while it runs; `None` where it reads none.
pub fn source_name(kind: &TaskKind) -> Option<&Text>
    ensures { option_copied result ≡ source_name (kind_files kind.now) }
{
    match kind {
        TaskKind::ReadPbf { file }
        | TaskKind::ReadOpl { file }
        | TaskKind::ReadOplChange { file } => Some(file),
        _ => None,
    }
}

/// The name of the file that a task writes; `None` where it writes none.
pub fn sink_name(kind: &TaskKind) -> Option<&Text>
    ensures { option_copied result ≡ sink_name (kind_files kind.now) }
{
    match kind {
        TaskKind::WritePbf { file, .. }
        | TaskKind::WriteOpl { file }
        | TaskKind::WriteOplChange { file }
        | TaskKind::WriteSummary { file } => Some(file),
        _ => None,
    }
}

/// The name of the polygon file that a task has its area from; `None` where it has none.
pub fn polygon_name(kind: &TaskKind) -> Option<&Text>
    ensures { option_copied result ≡ polygon_name (all_kind_files kind.now) }
{
    match kind {
        TaskKind::BoundingPolygon { file, .. } => Some(file),
        _ => None,
    }
}

/// Puts a device in its place, and drops what was there.
pub fn set_device<S: Drop, K: Drop>(devices: &mut [Device<S, K>], at: usize, device: Device<S, K>)
    requires { at < length devices.old }
    ensures { devices.new ≡ slice_set devices.old at device }
{
    devices[at] = device;
}

/// Takes a device out, and leaves none in its place.
pub fn take_device<S, K>(devices: &mut [Device<S, K>], at: usize) -> Device<S, K>
    requires { at < length devices.old }
    ensures value { result ≡ slice_index_or devices.old at result }
    ensures after { devices.new ≡ slice_set devices.old at Nothing }
{
    replace(&mut devices[at], Device::Nothing)
}
