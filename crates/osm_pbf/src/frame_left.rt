//! The frame in hand: what it says yet.
//!
//! A block is checked when its first item is asked for. Where that finds no memory, the block is
//! still there, and is checked at the next call.
ghost use Rattle.std.specs.Prelude.{◌≡◌, [], ◌∷◌, Ok, Err, Some, IfOk, IfNone, IfSome, OnErr};
ghost use Rattle.osm_block_read.specs.Block.{block_said};
ghost use Rattle.osm_pbf.specs.Reading.{frame_said};
ghost use Rattle.osm_pbf.specs.Steps.{AnswersItem};

use osm_blob::{Frame, What};
use osm_block_read::{BlockError, Plan, check_block, read_header};
use osm_entity::{Bytes, Cause, Item, NoMemory};
use std::alloc::Global;
use std::marker::Model;

/// How far it came with a frame.
#[derive(Clone, Copy, Debug, PartialEq, Eq)]
enum Stage {
    /// It says no items.
    Passed,
    /// It is bad.
    Refused(Cause),
    /// It is a block that wasn't checked yet.
    Unchecked,
    /// It is a block that was checked.
    Checked,
}

/// What the frame in hand says yet: its items, or its cause.
#[derive(Drop)]
pub(crate) struct FrameLeft {
    alloc: Global,
    stage: Stage,
    /// The raw content of the last block.
    raw: Bytes,
    /// Its plan.
    plan: Plan,
}

impl Model for FrameLeft {
    ghost use Rattle.std.specs.Prelude.{List};
    ghost use Rattle.std.specs.declared.result.Result.{Result};
    ghost use Rattle.osm_entity.specs.Items.{ItemValue};
    ghost use Rattle.osm_entity.specs.declared.verdict.Cause.{Cause};

    ghost Value = { Result (List ItemValue) Cause };

    ghost use Rattle.osm_pbf.specs.FrameLeft.{frame_left_seen};

    ghost view = { frame_left_seen };
}

// The next item of a block that was checked, which is then passed.
fn next_planned(alloc: Global, plan: &mut Plan) -> Result<Option<Item>, NoMemory>
    ensures some { IfOk result (λ found. IfSome found (λ item. plan.old ≡ item ∷ plan.new)) }
    ensures none { IfOk result (λ found. IfNone found (plan.old ≡ [])) }
    ensures ended { IfOk result (λ found. IfNone found (plan.new ≡ plan.old)) }
    ensures err { OnErr result (plan.new ≡ plan.old) }
{
    let Some(piece) = plan.peek() else {
        return Ok(None);
    };
    let item = piece.item(alloc)?;
    plan.pass();
    Ok(Some(item))
}

impl FrameLeft {
    /// No frame came yet.
    pub(crate) fn none(alloc: Global) -> FrameLeft
        ensures { result ≡ Ok [] }
    {
        FrameLeft {
            alloc,
            stage: Stage::Passed,
            raw: Bytes::new(alloc),
            plan: Plan::new(alloc),
        }
    }

    /// Takes a frame in hand, before which a header came or not.
    pub(crate) fn take(&mut self, came: bool, frame: Frame)
        ensures { self.new ≡ frame_said came frame.what frame.raw }
    {
        match frame.what {
            What::Header => match read_header(frame.raw.as_slice()) {
                Ok(()) => self.stage = Stage::Passed,
                Err(cause) => self.stage = Stage::Refused(cause),
            },
            What::Block => {
                if came {
                    self.raw = frame.raw;
                    self.stage = Stage::Unchecked;
                } else {
                    self.stage = Stage::Refused(Cause::NoHeader);
                }
            }
            What::Other => self.stage = Stage::Passed,
        }
    }

    /// Has a frame in hand that is bad.
    pub(crate) fn refuse(&mut self, cause: Cause)
        ensures { self.new ≡ Err cause }
    {
        self.stage = Stage::Refused(cause);
    }

    /// The next item of a block that was checked. `None` where it has no further one, and where the
    /// frame in hand is no such block; then nothing changes.
    #[inline(always)]
    pub(crate) fn next_checked(&mut self) -> Result<Option<Item>, NoMemory>
        ensures some { IfOk result (λ found. IfSome found
            (λ item. AnswersItem self.old self.new (Ok (Some item)))) }
        ensures none { IfOk result (λ found. IfNone found (self.new ≡ self.old)) }
        ensures err { OnErr result (self.new ≡ self.old) }
    {
        match self.stage {
            Stage::Checked => next_planned(self.alloc, &mut self.plan),
            _ => Ok(None),
        }
    }

    /// The next item. `None` where the frame says no further one; `Bad` where it is bad.
    pub(crate) fn next(&mut self) -> Result<Option<Item>, BlockError>
        ensures { AnswersItem self.old self.new result }
    {
        match self.stage {
            Stage::Passed => Ok(None),
            Stage::Refused(cause) => Err(BlockError::Bad(cause)),
            Stage::Unchecked => {
                check_block(&mut self.plan, self.raw.as_slice())?;
                self.stage = Stage::Checked;
                Ok(next_planned(self.alloc, &mut self.plan)?)
            }
            Stage::Checked => { Ok(next_planned(self.alloc, &mut self.plan)?) }
        }
    }
}
