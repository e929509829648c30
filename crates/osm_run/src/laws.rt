//! Laws over the outcome of a run: what it promises to its user, for every command and meaning.
ghost use Rattle.std.specs.Prelude.{◌≡◌, ◌⊎◌, ⊤, List, ℕ, [], Option, true, false};
ghost use Rattle.std.specs.List.{AllByRecursion, list_any};
ghost use Rattle.osm_host.specs.Moments.{Moment};
ghost use Rattle.osm_host.specs.declared.outside.Op.{Op};
ghost use Rattle.osm_report.specs.declared.fault.Fault.{Fault};
ghost use Rattle.osm_report.specs.declared.fault.Fault.TheVariants.{Clean, Memory};
ghost use Rattle.osm_run.specs.Causes.{CauseOf, UncleanBy};
ghost use Rattle.osm_run.specs.Codes.{code_of};
ghost use Rattle.osm_run.specs.Command.{Command};
ghost use Rattle.osm_run.specs.Course.{Course, entries, meaning_of};
ghost use Rattle.osm_run.specs.Headline.{EachFileNow, HoldPrefixesBefore, HoldsBytes, HoldsPrefixUnlessRose, HoldsUnlessRose, IsCalmStop, IsComplete, IsUnspilled, IsWholeCourse, NoneRose, OfEachRun, OthersStay, SameFiles, RanItsTasks, TellsReader};
ghost use Rattle.osm_run.specs.HowFar.{AfterStop, IsBeforeSinks, WhereTold};
ghost use Rattle.osm_run.specs.Lawful.{EndsWhole, IsLawful};
ghost use Rattle.osm_run.specs.OnHost.{IsCourse};
ghost use Rattle.osm_run.specs.Outcome.{IsSaid};
ghost use Rattle.osm_run.specs.Plan.{is_named, numbered, uses};
ghost use Rattle.osm_run.specs.declared.status.Status.{Status};

/// After status 0 every entry is clean, every task of a lawful command ended whole, every count is
/// as it was, each writer's name holds its bytes, and nothing was said.
pub fn clean_runs()
    ensures ends { OfEachRun (λ k before after status run. status.fault ≡ Clean →
        AllByRecursion (λ e. e.clean ≡ true) status.ends) }
    ensures whole { OfEachRun (λ k before after status run. status.fault ≡ Clean →
        IsLawful k → AllByRecursion (EndsWhole (meaning_of k run.course)) (numbered k.plan)) }
    ensures counts { OfEachRun (λ k before after status run. status.fault ≡ Clean →
        (op : Op) (n : List ℕ) → after.count op n ≡ before.count op n) }
    ensures files { OfEachRun (λ k before after status run. status.fault ≡ Clean →
        EachFileNow k.plan before after (HoldsBytes (meaning_of k run.course))) }
    ensures said { (says : Fault → List ℕ) (before after : Moment) (status : Status) →
        says Clean ≡ [] → IsSaid (says status.fault) before after → status.fault ≡ Clean →
        (after.said ≡ before.said) × (after.mute ≡ before.mute) }
{}

/// Where the tasks ran, a writer's name holds its bytes unless its count of puts or keeps rose or a
/// store on the way to it failed, and the first bytes of them unless its count of keeps rose.
pub fn writers_hold()
    ensures bytes { OfEachRun (λ k before after status run. RanItsTasks run.how_far →
        EachFileNow k.plan before after (HoldsUnlessRose k run.course before after)) }
    ensures prefix { OfEachRun (λ k before after status run. RanItsTasks run.how_far →
        EachFileNow k.plan before after (HoldsPrefixUnlessRose k run.course before after)) }
{}

/// Out of memory, the writers before a place in command order hold the first bytes of their
/// meaning, and every other name is as it was. Nothing is said of a name whose count of keeps rose.
pub fn memory_leaves_prefixes()
    ensures { OfEachRun (λ k before after status run. status.fault ≡ Memory →
        WhereTold before.files after.files (λ was now. (place : ℕ) ×
        HoldPrefixesBefore k run.course before after place was now)) }
{}

/// A name that no writer has stays as it was, and so do the counts of a name that no file has, also
/// out of memory.
pub fn others_stay()
    ensures files { OfEachRun (λ k before after status run.
        WhereTold before.files after.files (OthersStay k.plan)) }
    ensures counts { OfEachRun (λ k before after status run. (op : Op) (n : List ℕ) →
        list_any (is_named n) (uses k.plan) ≡ false → after.count op n ≡ before.count op n) }
{}

/// No run has a status of 2 or 3, that of a refusal.
pub fn runs_are_no_refusals()
    ensures { OfEachRun (λ k before after status run.
        (code_of status.fault ≡ 2) ⊎ (code_of status.fault ≡ 3) → ⊥) }
{}

/// There is an entry for each reader, or none at all where no sink was opened and nothing came from
/// a source; then no file changed.
pub fn entries_come_with_files()
    ensures entries { OfEachRun (λ k before after status run.
        (status.ends ≡ entries k.plan run.course)
        ⊎ ((status.ends ≡ []) × AllByRecursion (IsBeforeSinks run.course) run.course.opened)) }
    ensures files { OfEachRun (λ k before after status run.
        (status.ends ≡ entries k.plan run.course)
        ⊎ WhereTold before.files after.files SameFiles) }
{}

/// Each fault has its cause, and each entry that isn't clean its own reason: the bytes of its own
/// reader, whoever's fault the status names, their number, a failed call, or memory.
pub fn faults_have_causes()
    ensures fault { OfEachRun (λ k before after status run.
        CauseOf k run.course before after status.ends status.fault) }
    ensures unclean { OfEachRun (λ k before after status run. AllByRecursion (λ e. e.clean ≡ false →
        UncleanBy k run.course before after status.fault e) status.ends) }
    ensures entries { OfEachRun (λ k before after status run.
        AllByRecursion (TellsReader run.course) status.ends) }
{}

/// Where no count of a name rose and no store failed, a run of a lawful command whose tasks ran has
/// the fault and the files of its meaning over whole files.
pub fn calm_runs_are_complete()
    ensures { OfEachRun (λ k before after status run. IsLawful k → RanItsTasks run.how_far →
        NoneRose before after → AllByRecursion (IsUnspilled run.course) (uses k.plan) →
        WhereTold before.files after.files (λ was now. (whole : Course) →
        IsWholeCourse k was whole → IsComplete k whole now status)) }
{}

/// Where no count of a name rose and no store failed, a run that stopped did so at a polygon file,
/// which is too long or wrong as a whole file.
pub fn calm_stops_are_complete()
    ensures { OfEachRun (λ k before after status run.
        (stop : AfterStop k run.course before after status) → NoneRose before after →
        AllByRecursion (IsUnspilled run.course) (uses k.plan) →
        WhereTold before.files after.files (λ was now. IsCalmStop k was stop.last status.fault)) }
{}
