//! Which calls of a host in memory fail: the nth of a kind on a name, counted from 1.
ghost use Rattle.std.specs.Prelude.{◌≡◌, IfOk};
ghost use Rattle.osm_host.specs.Counts.{is_at};
ghost use Rattle.osm_host.specs.Plans.{is_planned, nearer, after_call, CallsComeNearer};

use crate::outside::Op;
use osm_entity::{NoMemory, Sequence, Text};
use std::alloc::Global;

/// A call that fails.
#[derive(Debug, Drop)]
pub struct FailAt {
    pub name: Text,
    pub op: Op,
    /// Which call of this kind on this name, counted from 1. At 0 none fails.
    pub nth: u64,
}

/// The calls that fail, in any order.
pub type Fails = Sequence<FailAt>;

impl FailAt {
    fn copy(&self, alloc: Global) -> Result<FailAt, NoMemory>
        ensures { IfOk result (λ f. f ≡ self.now) }
    {
        let name = self.name.copy(alloc)?;
        Ok(FailAt {
            name,
            op: self.op,
            nth: self.nth,
        })
    }

    fn is_at(&self, op: Op, name: &Text) -> bool
        ensures { result ≡ is_at op name.now self.now.op self.now.name }
    {
        self.op.number() == op.number() && name.is(&self.name)
    }

    /// Comes one call nearer, where this call is of its kind and on its name.
    fn pass(&mut self, op: Op, name: &Text)
        ensures { self.new ≡ nearer op name.now self.old }
    {
        if self.is_at(op, name) {
            self.nth = self.nth.saturating_sub(1);
        }
    }
}

/// The calls that fail from now on: here an nth is counted from the next call.
#[derive(Debug, Drop)]
pub struct Plan {
    pub fails: Vec<FailAt>,
}

fn copies(alloc: Global, fails: &[FailAt]) -> Result<Vec<FailAt>, NoMemory>
    ensures { IfOk result (λ v. v.items ≡ fails.now) }
{
    let mut copies = Vec::new(alloc);
    for fail in fails {
        if copies.push(fail.copy(alloc)?).is_err() {
            return Err(NoMemory);
        }
    }
    Ok(copies)
}

fn has_call(fails: &[FailAt], op: Op, name: &Text) -> bool
    ensures { result ≡ is_planned op name.now 1 fails.now }
{
    fails
        .iter()
        .any(|fail| fail.is_at(op, name) && fail.nth == 1)
}

fn pass_each(fails: &mut [FailAt], op: Op, name: &Text)
    ensures { fails.new ≡ after_call op name.now fails.old }
{
    for fail in fails.iter_mut() {
        fail.pass(op, name);
    }
}

impl Plan {
    /// A plan before the first call.
    pub fn new(alloc: Global, fails: &[FailAt]) -> Result<Plan, NoMemory>
        ensures { IfOk result (λ p. p.fails.items ≡ fails.now) }
    {
        let fails = copies(alloc, fails)?;
        Ok(Plan { fails })
    }

    /// Whether a call of this kind on this name fails, which is then made.
    pub fn fails(&mut self, op: Op, name: &Text) -> bool
        ensures value { result ≡ is_planned op name.now 1 self.old.fails.items }
        ensures after { self.new.fails.items ≡ after_call op name.now self.old.fails.items }
    {
        let fails = has_call(&self.fails, op, name);
        pass_each(&mut self.fails, op, name);
        fails
    }
}

/// After a call of a kind on a name, the nth of them from now was the one after the nth; of all
/// other kinds and names it stays the nth. So from the plan of a new host the nth call fails.
pub fn calls_come_nearer()
    ensures { CallsComeNearer }
{}
