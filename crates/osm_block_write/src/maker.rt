//! The maker of a block: it takes entities of one kind until their run is full, and gives their
//! block.
ghost use Rattle.std.specs.Prelude.{◌≡◌, ◌≤◌, ◌<◌, ◌+◌, ◌++◌, ◌∷◌, [], ◌||◌, ◌⊎◌, ◌↔◌, List, false, Err, IfOk, OnOk, OnErr, IsTrue};
ghost use Rattle.osm_entity.specs.Entities.{EntityValue, weight_of, greatest_weight};
ghost use Rattle.osm_entity.specs.Items.{kind_of};
ghost use Rattle.osm_block_write.specs.Block.{block_bytes};
ghost use Rattle.osm_block_write.specs.Making.{Holds};
ghost use Rattle.osm_block_write.specs.Messages.{has_tags};
ghost use Rattle.osm_block_write.specs.Runs.{greatest_run, takes};
ghost use Rattle.osm_block_write.specs.declared.maker.AddError.TheVariants.{Full};

use crate::block::append_block;
use crate::messages::Room;
use crate::options::PbfOptions;
use crate::taken::{Taken, take_entity};
use crate::texts::Table;
use osm_entity::{Bytes, Entity, Kind, NoMemory, Sequence, weight};
use std::alloc::Global;
use std::marker::Model;

/// The most that the entities of a block weigh together.
const GREATEST_RUN: u64 = 16_777_216;

/// Why a maker didn't take an entity.
#[derive(Clone, Copy, Debug, PartialEq, Eq)]
pub enum AddError {
    /// Its run is full before this entity.
    Full,
    /// Out of memory.
    Memory,
}

/// Makes the blocks of runs of one kind, one after the other. It keeps nothing of an entity but
/// what its block needs.
#[derive(Drop)]
pub struct BlockMaker {
    alloc: Global,
    options: PbfOptions,
    kind: Kind,
    count: u32,
    weight: u64,
    taken: Taken,
    tagged: bool,
    room: Room,
}

impl Model for BlockMaker {
    ghost use Rattle.osm_block_write.specs.Making.{IsMaker, MakerValue};

    ghost Value = { MakerValue };

    ghost use Rattle.osm_block_write.specs.Seen.{maker_seen};

    ghost view = { maker_seen };

    ghost invariant = { λ m. IsMaker (maker_seen m) };
}

impl BlockMaker {
    /// A maker of blocks of this kind, without entities.
    pub fn new(alloc: Global, options: PbfOptions, kind: Kind) -> Result<BlockMaker, NoMemory>
        ensures options { IfOk result (λ m. m.options ≡ options) }
        ensures kind { IfOk result (λ m. m.kind ≡ kind) }
        ensures holds { IfOk result (λ m. Holds m []) }
    {
        Ok(BlockMaker {
            alloc,
            options,
            kind,
            count: 0,
            weight: 0,
            taken: Taken {
                texts: Table::new(alloc)?,
                rows: Sequence::new(alloc),
                bytes: Bytes::new(alloc),
            },
            tagged: false,
            room: Room {
                message: Bytes::new(alloc),
                part: Bytes::new(alloc),
                nodes: Bytes::new(alloc),
            },
        })
    }

    /// Takes an entity of its kind. `Full` exactly where it holds `batchlimit` entities, or where
    /// they would weigh more than 16,777,216 together. At `Err` it is as it was.
    pub fn add(&mut self, entity: &Entity) -> Result<(), AddError>
        requires { kind_of entity.now.body ≡ self.old.kind }
        ensures refused { result ≡ Err Full ↔ ((self.old.options.batchlimit ≤ self.old.count)
            ⊎ (greatest_run < self.old.weight + weight_of entity.now)) }
        ensures takes { (run : List EntityValue) → Holds self.old run →
            result ≡ Err Full ↔ takes self.old.options.batchlimit run entity.now ≡ false }
        ensures holds { OnOk result ((run : List EntityValue) → Holds self.old run →
            Holds self.new (run ++ entity.now ∷ [])) }
        ensures options { self.new.options ≡ self.old.options }
        ensures kind { self.new.kind ≡ self.old.kind }
        ensures err { OnErr result (self.new ≡ self.old) }
    {
        let more = weight(entity);
        if self.is_full(more) {
            return Err(AddError::Full);
        }
        if take_entity(
            &mut self.taken,
            &mut self.room,
            &self.options,
            self.kind,
            entity,
        )
        .is_err()
        {
            return Err(AddError::Memory);
        }
        self.count += 1;
        self.weight += more;
        self.tagged = is_tagged(self.tagged, entity);
        Ok(())
    }

    // Whether it takes no entity of this weight.
    fn is_full(&self, more: u64) -> bool
        requires { more ≤ greatest_weight }
        ensures { IsTrue result ↔ ((self.now.options.batchlimit ≤ self.now.count)
            ⊎ (greatest_run < self.now.weight + more)) }
    {
        self.count >= self.options.batchlimit || self.weight + more > GREATEST_RUN
    }

    /// The block of the entities that it took, after which it is without entities. At `Err` it is
    /// as it was.
    pub fn finish(&mut self) -> Result<Bytes, NoMemory>
        ensures block { (run : List EntityValue) → Holds self.old run →
            IfOk result (λ block. block ≡ block_bytes self.old.options self.old.kind run) }
        ensures holds { OnOk result (Holds self.new []) }
        ensures options { self.new.options ≡ self.old.options }
        ensures kind { self.new.kind ≡ self.old.kind }
        ensures err { OnErr result (self.new ≡ self.old) }
    {
        let mut block = Bytes::new(self.alloc);
        append_block(
            &mut block,
            &mut self.room,
            &self.options,
            self.kind,
            &self.taken,
            self.tagged,
        )?;
        self.count = 0;
        self.weight = 0;
        self.taken.texts.truncate(1);
        self.taken.rows.truncate(0);
        self.taken.bytes.truncate(0);
        self.tagged = false;
        Ok(block)
    }
}

// Whether an entity has tags, or those before it had some.
fn is_tagged(tagged: bool, entity: &Entity) -> bool
    ensures { result ≡ (tagged || has_tags entity.now) }
{
    tagged || entity.tags.len() > 0
}
