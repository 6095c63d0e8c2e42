//! Laws of whole runs. Each function's contract is the law, and its body is empty.

ghost use Rattle.jlr_histories.specs.Laws.{ReferenceGoesForward, CleanableGoesForward, ReferenceLifeGoesForward};
ghost use Rattle.jlr_histories.specs.Laws.{CleanableLifeGoesForward, EnqueuedAtMostOnce, EnqueuedOnItsWay};
ghost use Rattle.jlr_histories.specs.Laws.{EnqueuedIsCleared, NewIsFresh, NewIsArmed, OnlyTheyClear, TakenUpAtMostOnce};
ghost use Rattle.jlr_histories.specs.Laws.{TakeUpsAreCounted, TakeUpBeginsItsJob, JobRunsUntilItsOutcome};
ghost use Rattle.jlr_histories.specs.Laws.{JobRunsOnUntilItsOutcome, FinishRecordsTheOutcome, TakersFinishIsRecorded};
ghost use Rattle.jlr_histories.specs.Laws.{OnlyOutcomesAreRecorded, OutcomesAreRecorded, WaitingResourcesAreIdle};
ghost use Rattle.jlr_histories.specs.Laws.{ReferencesGoForwardInHistories, CleanablesGoForwardInHistories};
ghost use Rattle.jlr_histories.specs.Laws.{EnqueuedAtMostOnceInHistories, TakenUpAtMostOnceInRuns, TakeUpsEndOrRun};
ghost use Rattle.jlr_histories.specs.Laws.{TakeUpHasOneOutcomeOrRunsInRuns, ResourcesInCallsAreFenced};
ghost use Rattle.jlr_histories.specs.Laws.{OneResourceAnAction, PhaseIsItsState, ResourceKeepsItsRid};
ghost use Rattle.jlr_histories.specs.Laws.{CallsFindTheirResourcesIdle, JobsFindTheirResourcesIdle, ResourceGoesOn};
ghost use Rattle.jlr_histories.specs.Laws.{OverIsOver, ResourceLivesInOrder, ResourceLivesInOrderInRuns};
ghost use Rattle.jlr_histories.specs.Sizes.{PlainKeepsItsSize};
ghost use Rattle.jlr_histories.specs.Promises.{RunsKeepThePromises};

/// One entry makes of a reference what it may: its kind stays, its referent and its queue stay or go, and its state
/// stays or becomes the next.
pub fn a_reference_only_goes_forward()
    ensures { ReferenceGoesForward }
{}

/// And of a cleanable: its action and its work stay.
pub fn a_cleanable_only_goes_forward()
    ensures { CleanableGoesForward }
{}

/// No entry changes how many fields or elements an object has, nor makes the ones of the others.
pub fn a_plain_object_keeps_its_size()
    ensures { PlainKeepsItsSize }
{}

/// So a reference never comes back to an earlier state, nor to a referent or a queue, however long it lives.
pub fn a_life_only_goes_forward()
    ensures references { ReferenceLifeGoesForward }
    ensures cleanables { CleanableLifeGoesForward }
{}

/// A new reference is Fresh: so a life begins, and its enqueueings are counted from there.
pub fn a_new_reference_is_fresh()
    ensures { NewIsFresh }
{}

/// A new cleanable is Armed.
pub fn a_new_cleanable_is_armed()
    ensures { NewIsArmed }
{}

/// In its life a reference is enqueued at most once: just once on its way to being Queued or Removed, and never before.
pub fn a_reference_is_enqueued_at_most_once()
    ensures at_most_once { EnqueuedAtMostOnce }
    ensures on_its_way { EnqueuedOnItsWay }
{}

/// A reference that is enqueued has no referent any more.
pub fn what_is_enqueued_is_cleared()
    ensures { EnqueuedIsCleared }
{}

/// A reference loses its referent only by a collection, or by the program's `clear` or `enqueue` of that reference.
pub fn references_are_cleared_only_by_collections_and_the_program()
    ensures { OnlyTheyClear }
{}

/// An action is taken up at most once in a run, whoever takes it up: a mutator by `clean` or `close`, or the cleaner.
pub fn an_action_is_taken_up_at_most_once()
    ensures { TakenUpAtMostOnce }
{}

/// The machine counts each take-up.
pub fn take_ups_are_counted()
    ensures { TakeUpsAreCounted }
{}

/// A take-up begins the job that it hands out, with that work, of the mutator that asked or else of the cleaner.
pub fn a_take_up_begins_its_job()
    ensures { TakeUpBeginsItsJob }
{}

/// A job runs, of the same taker and with the same work, until its outcome is recorded: nothing else ends it.
pub fn a_job_runs_until_its_outcome()
    ensures entry { JobRunsUntilItsOutcome }
    ensures run { JobRunsOnUntilItsOutcome }
{}

/// A finish that is not refused ends a job of the one who asks, and records its outcome: one more went well, and its
/// note is kept, or one more failed, and its fault is kept. A finish by the taker of a running job is never refused,
/// and no other entry records anything.
pub fn a_finish_records_the_outcome()
    ensures recorded { FinishRecordsTheOutcome }
    ensures never_refused { TakersFinishIsRecorded }
    ensures only_so { OnlyOutcomesAreRecorded }
{}

/// In a run each job of an action, one that ran at the start or was taken up since, has had its outcome recorded or
/// still runs.
pub fn outcomes_are_recorded()
    ensures { OutcomesAreRecorded }
{}

/// A resource whose cleanable waits for the handler or the cleaner is idle: no call is under way on it.
pub fn waiting_resources_are_idle()
    ensures { WaitingResourcesAreIdle }
{}

/// Each life in a run from an empty machine only goes forward, and has at most one enqueueing.
pub fn lives_from_an_empty_machine_only_go_forward()
    ensures references { ReferencesGoForwardInHistories }
    ensures cleanables { CleanablesGoForwardInHistories }
    ensures enqueued { EnqueuedAtMostOnceInHistories }
{}

/// In a run from an empty machine each action is taken up at most once, and all that were taken up ended well, failed,
/// or run.
pub fn take_ups_from_an_empty_machine_end_or_run()
    ensures at_most_once { TakenUpAtMostOnceInRuns }
    ensures accounted { TakeUpsEndOrRun }
{}

/// In a run from an empty machine each take-up of an action has one outcome recorded, or its job runs; and no action
/// has two outcomes.
pub fn each_take_up_has_one_outcome_or_runs()
    ensures { TakeUpHasOneOutcomeOrRunsInRuns }
{}

/// A resource that is opening or out is what a mutator's call is on, with the call's fence on its guard: so no call
/// loses its file or socket.
pub fn resources_in_calls_are_fenced()
    ensures { ResourcesInCallsAreFenced }
{}

/// An action finishes at most one resource, so its number names the resource; the phase under that name is the
/// resource's state.
pub fn each_action_has_one_resource()
    ensures one { OneResourceAnAction }
    ensures phase { PhaseIsItsState }
{}

/// Under one Rid it lies from its open to its end.
pub fn a_resource_keeps_its_rid()
    ensures { ResourceKeepsItsRid }
{}

/// A resource is handed out only where it is idle: to a call, and with a job to finish it, be it to the cleaner or to a
/// mutator.
pub fn resources_are_handed_out_idle()
    ensures calls { CallsFindTheirResourcesIdle }
    ensures jobs { JobsFindTheirResourcesIdle }
{}

/// One entry makes of a resource what it may: from not yet there over Opening, Idle and Out in turns, and Closing,
/// until it is over.
pub fn a_resource_goes_on()
    ensures { ResourceGoesOn }
{}

/// What is over never comes back.
pub fn a_resource_ends_for_good()
    ensures { OverIsOver }
{}

/// Each resource sees one open, then reads and writes, each ended before the next, then at most one finish, then
/// nothing.
pub fn resources_live_in_order()
    ensures runs { ResourceLivesInOrder }
    ensures from_empty { ResourceLivesInOrderInRuns }
{}

/// A run keeps what the package promises: references are cleared only in sets that its specification allows, or by the
/// program; each is enqueued at most once, and only when cleared; each cleaning action is taken up at most once, and
/// its outcome recorded once, or it runs.
pub fn a_run_keeps_the_promises()
    ensures { RunsKeepThePromises }
{}
