//! Laws of open cycles. Each function's contract is the law, and its body is empty.

ghost use Rattle.jlr_histories.specs.CycleLaws.{LegalWhenMoreWasSeen, LeavesTheSameWhateverWasSeen, SeenStaysSeen};
ghost use Rattle.jlr_histories.specs.CycleLaws.{StandsForItself, GoesOnStanding, LegalInAllForWhichItStands};
ghost use Rattle.jlr_histories.specs.CycleLaws.{CoreStaysWellFormed, AddsEdgesToRootsAlone, GoesOnMarking};

/// What was seen matters to nothing but what a background collection may keep: where more was seen, at least the same
/// entries are legal.
pub fn an_entry_stays_legal_when_more_was_seen()
    ensures { LegalWhenMoreWasSeen }
{}

/// And it changes nothing of what an entry does.
pub fn an_entry_leaves_the_same_whatever_was_seen()
    ensures { LeavesTheSameWhateverWasSeen }
{}

/// What was seen in a cycle stays seen as long as the cycle is open.
pub fn what_was_seen_stays_seen()
    ensures { SeenStaysSeen }
{}

/// Outside a cycle, where nothing was seen, a core stands for the machine that it keeps.
pub fn a_core_outside_a_cycle_stands_for_its_own_machine()
    ensures { StandsForItself }
{}

/// An entry that is legal where just what the roots now reach was seen is legal in each machine for which the core
/// stands, and the core goes on standing for it.
pub fn a_core_goes_on_standing()
    ensures { GoesOnStanding }
{}

/// So is an entry that is legal in the core's own machine, with nothing seen.
pub fn a_legal_entry_of_a_core_is_legal_in_all_for_which_it_stands()
    ensures { LegalInAllForWhichItStands }
{}

/// And the machine that the core keeps stays well formed.
pub fn the_machine_of_a_core_stays_well_formed()
    ensures { CoreStaysWellFormed }
{}

/// Each strong or soft edge that an ask adds leads to a root.
pub fn an_ask_adds_edges_to_roots_alone()
    ensures { AddsEdgesToRootsAlone }
{}

/// An entry that is legal where only marked objects were seen is legal in each machine for which a core stands that has
/// marked them, and the core goes on standing for it.
pub fn a_marking_core_goes_on_standing()
    ensures { GoesOnMarking }
{}
