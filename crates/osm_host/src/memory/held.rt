//! The host whose files lie in memory.
ghost use Rattle.std.specs.Prelude.{◌≡◌, ℕ, ◌<◌, List, [], Some, IfOk};

use crate::memory::files::Files;
use crate::memory::plan::{Fails, Plan};
use crate::tallies::Tallies;
use osm_entity::{Bytes, NoMemory, Text};
use std::alloc::Global;

/// The most bytes that a host in memory lets be said.
const MAX_SAID: usize = 524_288;

/// A host whose files lie in memory. It tells everything.
#[derive(Drop)]
pub struct MemoryHost {
    pub(super) alloc: Global,
    pub(super) files: Files,
    pub(super) said: Bytes,
    pub(super) tallies: Tallies,
    pub(super) mutes: u64,
    pub(super) plan: Plan,
    pub(super) piece: u32,
    pub(super) is_mute: bool,
    pub(super) ghost paced: { 0 < piece },
}

impl MemoryHost {
    ghost use Rattle.std.specs.Prelude.{◌≢◌};
    ghost use Rattle.std.specs.List.{AllPairs};
    ghost use Rattle.osm_host.specs.Held.{files_of};
    ghost use Rattle.osm_host.specs.Memory.{can_say, moment_of, setup_of};
    ghost use Rattle.osm_host.specs.declared.outside.Op.{Op};

    /// A host with these files, of which no two have one name. A pull gives at most `piece` bytes.
    /// The calls of `fail` fail, and where it is `mute` each call of `say`.
    pub fn new(
        alloc: Global,
        files: Files,
        piece: u32,
        fail: Fails,
        mute: bool,
    ) -> Result<MemoryHost, NoMemory>
        requires piece { 0 < piece }
        requires names { AllPairs (λ f g. f.name ≢ g.name) files }
        ensures setup { IfOk result (λ h.
            setup_of h ≡ record { piece = piece; fails = fail; muted = mute }) }
        ensures files { IfOk result (λ h. (moment_of h).files ≡ Some (files_of files)) }
        ensures said { IfOk result (λ h. (moment_of h).said ≡ Some []) }
        ensures mute { IfOk result (λ h. (moment_of h).mute ≡ 0) }
        ensures counts { IfOk result (λ h. (o : Op) (n : List ℕ) → (moment_of h).count o n ≡ 0) }
        ensures gave { IfOk result (λ h. (n : List ℕ) → (moment_of h).gave n ≡ 0) }
        ensures known { IfOk result (λ h. (moment_of h).known ≡ []) }
    {
        Ok(MemoryHost {
            alloc,
            files,
            said: Bytes::with_room(alloc, MAX_SAID)?,
            tallies: Tallies::new(alloc),
            mutes: 0,
            plan: Plan::new(alloc, fail.as_slice())?,
            piece,
            is_mute: mute,
        })
    }

    /// The files.
    pub fn files(&self) -> &Files
        ensures { (moment_of self.now).files ≡ Some (files_of result.now) }
    {
        &self.files
    }

    /// The bytes that were said.
    pub fn said(&self) -> &Bytes
        ensures { (moment_of self.now).said ≡ Some result.now }
    {
        &self.said
    }

    /// Whether these bytes may be said.
    pub(super) fn can_say(&self, bytes: &[u8]) -> bool
        ensures { result ≡ can_say self.now bytes.now }
    {
        let room = MAX_SAID.saturating_sub(self.said.len());
        !self.is_mute && self.said.len() <= MAX_SAID && bytes.len() <= room
    }
}
