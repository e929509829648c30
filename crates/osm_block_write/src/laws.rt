//! What holds of the runs and the tables of any entities.
ghost use Rattle.std.specs.Prelude.{◌≡◌, ◌≤◌, ℕ, List, [], ◌∷◌, ◌++◌, IsTrue, Some, bytes_eq, slice_get};
ghost use Rattle.std.specs.List.{IsDistinct, list_any};
ghost use Rattle.osm_entity.specs.Entities.{EntityValue};
ghost use Rattle.osm_entity.specs.Prefixes.{IsPrefix};
ghost use Rattle.osm_entity.specs.declared.stream.End.{End};
ghost use Rattle.osm_entity.specs.declared.stream.End.TheVariants.{Broken};
ghost use Rattle.osm_block_write.specs.Runs.{AreLight, AreRuns, all_runs, runs_of, with_entity, written_runs};
ghost use Rattle.osm_block_write.specs.Tables.{string_table, text_number};

/// Entities that are light enough have exactly one list of runs, which is the one that a writer
/// makes, entity by entity. What it has written of a stream that broke off begins what it writes of
/// every stream that goes on.
pub fn runs_are_one_list()
    ensures exists { (limit : ℕ) (entities : List EntityValue) → 1 ≤ limit → AreLight entities →
        AreRuns limit entities (all_runs (runs_of limit entities)) }
    ensures only { (limit : ℕ) (entities : List EntityValue) (runs : List (List EntityValue)) →
        AreRuns limit entities runs → runs ≡ all_runs (runs_of limit entities) }
    ensures grows { (limit : ℕ) (entities : List EntityValue) (entity : EntityValue) →
        runs_of limit (entities ++ entity ∷ [])
        ≡ with_entity limit (runs_of limit entities) entity }
    ensures before { (limit : ℕ) (entities more : List EntityValue) (end : End) →
        IsPrefix (written_runs (runs_of limit entities) Broken)
        (written_runs (runs_of limit (entities ++ more)) end) }
{}

/// A string table begins with the empty text, has each of its texts at its number, and has no text
/// twice.
pub fn tables_name_their_texts()
    ensures first { (texts : List (List ℕ)) → slice_get (string_table texts) 0 ≡ Some [] }
    ensures named { (texts : List (List ℕ)) (text : List ℕ) →
        IsTrue (list_any (bytes_eq text) texts) →
        slice_get (string_table texts) (text_number (string_table texts) text) ≡ Some text }
    ensures once { (texts : List (List ℕ)) → IsDistinct bytes_eq (string_table texts) }
{}
