//! Laws over the run of words: which are refused and how, and what the run of the others is.
ghost use Rattle.std.specs.Prelude.{◌≡◌, ◌≢◌, ◌↔◌, ◌⊎◌, List, ℕ, [], Ok, Err};
ghost use Rattle.osm_circle.specs.Circles.{IsBareCircle};
ghost use Rattle.osm_circle.specs.declared.circle.Sense.{Sense};
ghost use Rattle.osm_graph.specs.Graphs.{GraphValue};
ghost use Rattle.osm_host.specs.Moments.{Moment};
ghost use Rattle.osm_report.specs.declared.fault.Fault.{Fault};
ghost use Rattle.osm_report.specs.declared.fault.Fault.TheVariants.{Buffering};
ghost use Rattle.osm_run.specs.Asked.{HasNoCircle, graph_asked};
ghost use Rattle.osm_run.specs.Outcome.{IsUnchanged};
ghost use Rattle.osm_run.specs.WordsRun.{IsWordsRun, RanOrHadNoMemory};
ghost use Rattle.osm_run.specs.declared.status.Status.{Status};

/// Words are refused rightly, where memory was there: with their first refusal; with status 3
/// exactly where their pipes have a bare circle, which the fault then is. Then nothing changed.
pub fn words_are_refused_rightly()
    ensures first { (words : List (List ℕ)) (before after : Moment) (status : Status) →
        IsWordsRun words before after status → status.code ≢ 6 → (refusal : Fault) →
        graph_asked words ≡ Err refusal → status.fault ≡ refusal }
    ensures circle { (words : List (List ℕ)) (before after : Moment) (status : Status) →
        IsWordsRun words before after status → status.code ≢ 6 → (graph : GraphValue) →
        graph_asked words ≡ Ok graph →
        status.code ≡ 3 ↔ ((circle : List Sense) × IsBareCircle graph.pipes circle) }
    ensures shown { (words : List (List ℕ)) (before after : Moment) (status : Status) →
        IsWordsRun words before after status → (circle : List Sense) →
        status.fault ≡ Buffering circle → (graph : GraphValue) ×
        (graph_asked words ≡ Ok graph) × IsBareCircle graph.pipes circle }
    ensures same { (words : List (List ℕ)) (before after : Moment) (status : Status) →
        IsWordsRun words before after status → (status.code ≡ 2) ⊎ (status.code ≡ 3) →
        (status.ends ≡ []) × IsUnchanged before after }
{}

/// Words whose graph is run have the run of their graph's command: all that is promised of the run
/// of a lawful command holds of it. Else memory ran out before, and nothing changed.
pub fn words_run_their_command()
    ensures { (words : List (List ℕ)) (before after : Moment) (status : Status) →
        IsWordsRun words before after status → (graph : GraphValue) →
        graph_asked words ≡ Ok graph → HasNoCircle graph →
        RanOrHadNoMemory graph before after status }
{}
