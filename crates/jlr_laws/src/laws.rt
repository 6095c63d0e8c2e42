//! Laws of the machine. Each function's contract is the law, and its body is empty.

ghost use Rattle.jlr_machine.specs.Edges.{roots};
ghost use Rattle.jlr_machine.specs.Run.{empty_from};
ghost use Rattle.jlr_machine.specs.WellFormed.{IsWellFormed, IsImage};
ghost use Rattle.std.specs.Prelude.{ℕ, ◌≤◌};
ghost use Rattle.jlr_machine.specs.declared.machine.Machine.{Machine};
ghost use Rattle.jlr_laws.specs.Laws.{IsWithinHeap, RoundsFindWhatPathsReach, EachClearingIsAsSpecified};
ghost use Rattle.jlr_laws.specs.Laws.{LeavesWhatItsStepsLeave, ComesDownToCuttingOff, SoftReferencesGoBeforeAFullHeap};
ghost use Rattle.jlr_laws.specs.Laws.{ListsAreInOrder, RefusalsAreListed, RefusalChangesNothing};
ghost use Rattle.jlr_laws.specs.Laws.{FullHeapLeavesItsCollection, SeenStaysUpToDate, LegalKeepsWellFormed};
ghost use Rattle.jlr_laws.specs.Laws.{RunKeepsWellFormed, RunsAreWellFormed, TakenUpIsAccountedFor};
ghost use Rattle.jlr_laws.specs.Laws.{ResourcesInCallsAreArmed, BackgroundComesDownToCuttingOff, PolicyMakesFull};
ghost use Rattle.jlr_laws.specs.Laws.{KeepingNoneMakesClearing, LegalityLooksAtNoSeat, AnySeatLeavesTheSame};
ghost use Rattle.jlr_laws.specs.Deciding.{CollectionsAreDecided, BackgroundIsDecided, ClearingIsDecided};
ghost use Rattle.jlr_laws.specs.Deciding.{LegalityIsDecided, SeenIsWithin};

/// The finite set that rounds find is what paths reach.
pub fn rounds_find_what_paths_reach()
    ensures { RoundsFindWhatPathsReach }
{}

/// Each clearing of a collection is one that the package specification allows, in its words.
pub fn each_clearing_is_as_specified()
    ensures { EachClearingIsAsSpecified }
{}

/// What the machine after a collection has at a slot is what the three clearings leave there.
pub fn a_collection_leaves_what_its_steps_leave()
    ensures { LeavesWhatItsStepsLeave }
{}

/// What is kept holds the base, is closed under strong edges and reached inside: just these are collections.
pub fn a_collection_cuts_off()
    ensures { ComesDownToCuttingOff }
{}

/// A background collection, which counts all that it keeps as reachable, needs no path to what it keeps.
pub fn a_background_collection_cuts_off()
    ensures { BackgroundComesDownToCuttingOff }
{}

/// The least set that holds the roots and is closed under strong edges and the soft ones that a policy keeps is a full
/// collection's.
pub fn a_policy_makes_a_full_collection()
    ensures { PolicyMakesFull }
{}

/// With a policy that keeps none it is that of a collection that clears all.
pub fn keeping_none_clears_all()
    ensures { KeepingNoneMakesClearing }
{}

/// Whether a collection is one is decided by a test that computes.
pub fn collections_are_decided()
    ensures { CollectionsAreDecided }
{}

/// So is a background collection.
pub fn background_collections_are_decided()
    ensures { BackgroundIsDecided }
{}

/// And a full one that clears all soft references.
pub fn clearing_collections_are_decided()
    ensures { ClearingIsDecided }
{}

/// Whether an entry is legal is decided by a test that computes.
pub fn legality_is_decided()
    ensures { LegalityIsDecided }
{}

/// After each entry, legal or not, what was seen lies within the heap.
pub fn what_was_seen_is_within()
    ensures { SeenIsWithin }
{}

/// Before a full heap is answered all soft references to softly reachable objects are cleared.
pub fn soft_references_go_before_a_full_heap()
    ensures { SoftReferencesGoBeforeAFullHeap }
{}

/// The empty machine is well formed, and may stand at the head of a trace, whatever its next action.
pub fn the_empty_machine_is_an_image()
    ensures { (cells sessions resources next_action : ℕ) → 1 ≤ next_action → cells ≤ 65536 → sessions ≤ 64
        → IsImage (empty_from cells sessions resources next_action) }
{}

/// In a well-formed machine edges and roots stay within the heap, which is the premise of the laws of collections.
pub fn a_well_formed_heap_is_closed()
    ensures { (m : Machine) → IsWellFormed m → IsWithinHeap m.objects (roots m) }
{}

/// What was seen is up to date after every entry.
pub fn what_was_seen_stays_up_to_date()
    ensures { SeenStaysUpToDate }
{}

/// A legal entry leads from a well-formed machine to a well-formed one.
pub fn a_legal_entry_keeps_the_machine_well_formed()
    ensures { LegalKeepsWellFormed }
{}

/// So does a run.
pub fn a_run_keeps_the_machine_well_formed()
    ensures { RunKeepsWellFormed }
{}

/// So each machine that a run from an empty one leads to is well formed.
pub fn runs_from_an_empty_machine_are_well_formed()
    ensures { RunsAreWellFormed }
{}

/// In such a run what was taken up ended well, failed, or is still running.
pub fn what_was_taken_up_is_accounted_for()
    ensures { TakenUpIsAccountedFor }
{}

/// A resource that is opening or out has an armed cleanable.
pub fn resources_in_calls_are_armed()
    ensures { ResourcesInCallsAreArmed }
{}

/// Each ask lists its refusals in the one order of checking.
pub fn each_list_of_refusals_is_in_order()
    ensures { ListsAreInOrder }
{}

/// A legal entry is refused only with a refusal that its ask lists, or because memory ran out, which no end meets.
pub fn each_refusal_is_listed()
    ensures { RefusalsAreListed }
{}

/// An entry that is refused leaves the machine as it was, whichever the refusal, unless the heap was full.
pub fn a_refusal_changes_nothing()
    ensures { RefusalChangesNothing }
{}

/// After a refusal for a full heap just the full collection stands.
pub fn a_full_heap_leaves_its_collection()
    ensures { FullHeapLeavesItsCollection }
{}

/// An entry is legal whoever asked.
pub fn legality_looks_at_no_seat()
    ensures { LegalityLooksAtNoSeat }
{}

/// And leaves the same.
pub fn any_seat_leaves_the_same()
    ensures { AnySeatLeavesTheSame }
{}
