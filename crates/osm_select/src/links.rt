//! Which relations name which, and the relations that are drawn in along these links.
//!
//! Who names an id is taken out when the id is met, so each link is followed once.
ghost use Rattle.std.specs.Prelude.{◌≡◌, ◌<◌, ℤ, Bool, true, false, OnOk, IfNone, IfSome, [], cond};
ghost use Rattle.std.specs.HashMap.{hash_map_len};
ghost use Rattle.osm_select.specs.IdSets.{HoldsAll, among, either};
ghost use Rattle.osm_select.specs.Links.{IsClosedUnder, Popped, linked, listed, no_links, with_link, with_list, without_id};

use crate::ids::Ids;
use osm_entity::{NoMemory, Sequence};
use std::alloc::Global;
use std::collections::HashMap;

/// For each id that is named, the ids of the relations that name it.
#[derive(Drop)]
pub(crate) struct Links {
    by: HashMap<i64, Sequence<i64>>,
}

fn or_none(alloc: Global, ids: Option<Sequence<i64>>) -> Sequence<i64>
    ensures { among result ≡ listed ids }
{
    match ids {
        Some(ids) => ids,
        None => Sequence::new(alloc),
    }
}

/// Adds ids to those that are marked, and to those whose links are still to be followed.
fn mark(marked: &mut Ids, queue: &mut Sequence<i64>, ids: &[i64]) -> Result<(), NoMemory>
    ensures marked { OnOk result
        (among marked.new ≡ either (among marked.old) (among ids.now)) }
    ensures queue { OnOk result (among queue.new ≡ either (among queue.old) (among ids.now)) }
{
    for id in ids {
        marked.add(*id)?;
        queue.push(*id)?;
    }
    Ok(())
}

impl Links {
    /// No links. It takes no memory.
    pub(crate) fn new(alloc: Global) -> Self
        ensures { linked result ≡ no_links }
    {
        Links {
            by: HashMap::new(alloc),
        }
    }

    fn add(&mut self, alloc: Global, named: i64, by: i64) -> Result<(), NoMemory>
        ensures { OnOk result (linked self.new ≡ with_link named by (linked self.old)) }
    {
        let mut ids = or_none(alloc, self.take(named));
        ids.push(by)?;
        self.put(named, ids)
    }

    /// Adds that a relation names another, where the test holds.
    pub(crate) fn add_if(
        &mut self,
        alloc: Global,
        test: bool,
        named: i64,
        by: i64,
    ) -> Result<(), NoMemory>
        ensures { OnOk result
            (linked self.new ≡ cond test (with_link named by (linked self.old)) (linked self.old)) }
    {
        if test {
            self.add(alloc, named, by)
        } else {
            Ok(())
        }
    }

    fn put(&mut self, named: i64, ids: Sequence<i64>) -> Result<(), NoMemory>
        ensures { OnOk result (linked self.new ≡ with_list named (among ids) (linked self.old)) }
    {
        match self.by.insert(named, ids) {
            Ok(_) => Ok(()),
            Err(_) => Err(NoMemory),
        }
    }

    /// Takes out who names an id.
    fn take(&mut self, named: i64) -> Option<Sequence<i64>>
        ensures ids { listed result ≡ linked self.old named }
        ensures rest { linked self.new ≡ without_id named (linked self.old) }
        ensures fewer { IfSome result (λ _. hash_map_len self.new.by < hash_map_len self.old.by) }
        ensures same { IfNone result (hash_map_len self.new.by ≡ hash_map_len self.old.by) }
    {
        self.by.remove(&named)
    }

    /// Takes ids off the queue until one of them is named, and takes out who names it.
    fn next(&mut self, queue: &mut Sequence<i64>) -> Option<Sequence<i64>>
        ensures some { IfSome result (λ ids. Popped (among queue.old) (among queue.new)
            (linked self.old) (linked self.new) (among ids)) }
        ensures fewer { IfSome result (λ _. hash_map_len self.new.by < hash_map_len self.old.by) }
        ensures none { IfNone result (queue.new ≡ []) }
        ensures still { IfNone result
            ((n b : ℤ) → among queue.old n ≡ true → linked self.new n b ≡ false) }
        ensures rest { IfNone result (linked self.new ≡ linked self.old) }
    {
        while let Some(id) = queue.pop() {
            match self.take(id) {
                Some(ids) => return Some(ids),
                None => {}
            }
        }
        None
    }

    /// Adds to the marked ids, those of the queue, all that name one of them or one that was added.
    pub(crate) fn follow(
        &mut self,
        marked: &mut Ids,
        queue: &mut Sequence<i64>,
    ) -> Result<(), NoMemory>
        requires { among marked.old ≡ among queue.old }
        ensures grows { OnOk result (HoldsAll (among marked.new) (among marked.old)) }
        ensures closed { OnOk result (IsClosedUnder (linked self.old) (among marked.new)) }
        ensures least { OnOk result ((set : ℤ → Bool) → HoldsAll set (among marked.old)
            → IsClosedUnder (linked self.old) set → HoldsAll set (among marked.new)) }
    {
        while let Some(ids) = self.next(queue) {
            mark(marked, queue, ids.as_slice())?;
        }
        Ok(())
    }
}
