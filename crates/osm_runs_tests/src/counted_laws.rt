//! How many steps a small run takes, by what `run_alone` promises of them. Worked out by hand.
ghost use Rattle.std.specs.Prelude.{◌≡◌, ◌≤◌, ◌++◌, ◌∷◌, [], ℕ, IsSomeAnd, Some, codes};
ghost use Rattle.std.specs.FinMap as finite;
ghost use Rattle.osm_host.specs.Moments.{Moment};
ghost use Rattle.osm_run.specs.WordsRun.{IsCountedWordsRun};
ghost use Rattle.osm_run.specs.declared.status.Status.{Status};

/// A run with status 0 of a reader, a buffer of one message and a writer that drops all takes 8 to
/// 18 steps, where the file is one node in nine bytes: the node and the end pass each of two pipes,
/// in two steps each, and nine bytes are pulled ten times at most.
pub fn a_buffered_node_takes_8_to_18_steps()
    ensures { (before after : Moment) (status : Status) (steps : ℕ) → IsCountedWordsRun
        (codes "--read-opl" ∷ codes "a" ∷ codes "--buffer" ∷ codes "1" ∷ codes "--write-null" ∷ [])
        before after status steps
        → IsSomeAnd before.files
        (λ files. finite.get files (codes "a") ≡ Some (codes "n1 x0 y0" ++ 10 ∷ []))
        → status.code ≡ 0 → (8 ≤ steps) × (steps ≤ 18) }
{}
