//! Worked runs, and entries that are not legal. Each function's contract is the law, and its body is empty.

ghost use Rattle.jlr_machine.specs.Run.{IsLegal};
ghost use Rattle.jlr_laws.specs.Rows.{IsRunFrom, after_all, start, two_sessions, one_resource, late_start};
ghost use Rattle.jlr_laws.specs.ReferenceRows.{weak_row, two_weak_row, queue_row, self_reference_row, clear_row};
ghost use Rattle.jlr_laws.specs.ReferenceRows.{phantom_row, program_first_row, soft_chain_row, soft_age_row};
ghost use Rattle.jlr_laws.specs.ReferenceRows.{soft_used_row};
ghost use Rattle.jlr_laws.specs.ArrayRows.{array_row, array_in_cycle_row};
ghost use Rattle.jlr_laws.specs.CleaningRows.{cleaner_row, file_row, failed_cleaning_row, closed_row, rid_again_row};
ghost use Rattle.jlr_laws.specs.CleaningRows.{one_resource_row, two_sessions_row};
ghost use Rattle.jlr_laws.specs.RefusalRows.{refused_row, wrong_moment_row, exhausted_row, full_heap_row};
ghost use Rattle.jlr_laws.specs.RefusalRows.{soft_full_row, names_row, names_full_row};
ghost use Rattle.jlr_laws.specs.CycleRows.{cycle_row, snapshot_row, deref_in_cycle_row, seen_reference_row};
ghost use Rattle.jlr_laws.specs.CycleRows.{soft_cleared_in_cycle_row, soft_kept_in_cycle_row, waiting_collect_row};
ghost use Rattle.jlr_laws.specs.CycleRows.{full_heap_in_cycle_row, poll_in_cycle_row, many_dropped_row};
ghost use Rattle.jlr_laws.specs.WrongEntries.{cleared_by_program, cleared_is_pended, closed_is_out};
ghost use Rattle.jlr_laws.specs.WrongEntries.{enqueued_by_program, first_weak_cleared, full_with_room};
ghost use Rattle.jlr_laws.specs.WrongEntries.{full_without_collection, gc_keeping_all, handler_appends_again};
ghost use Rattle.jlr_laws.specs.WrongEntries.{held_soft_cleared, held_soft_gives_null, one_dropped, rid_used_again};
ghost use Rattle.jlr_laws.specs.WrongEntries.{second_weak_kept, soft_chain_dropped, soft_chain_kept, taken_again};
ghost use Rattle.jlr_laws.specs.WrongEntries.{entries_taken_by_cleaner, two_cells, weak_dropped};

/// The worked rows on references, queues and soft references are runs from the empty machine.
pub fn reference_rows_are_runs()
    ensures weak { IsRunFrom start weak_row }
    ensures two_weak { IsRunFrom start two_weak_row }
    ensures queue { IsRunFrom start queue_row }
    ensures self_reference { IsRunFrom start self_reference_row }
    ensures clear { IsRunFrom start clear_row }
    ensures phantom { IsRunFrom start phantom_row }
    ensures program_first { IsRunFrom start program_first_row }
    ensures soft_chain { IsRunFrom start soft_chain_row }
    ensures soft_age { IsRunFrom start soft_age_row }
    ensures soft_used { IsRunFrom start soft_used_row }
{}

/// So are those on arrays.
pub fn array_rows_are_runs()
    ensures array { IsRunFrom start array_row }
    ensures array_in_cycle { IsRunFrom start array_in_cycle_row }
{}

/// So are those on the cleaner, files and sockets.
pub fn cleaning_rows_are_runs()
    ensures cleaner { IsRunFrom start cleaner_row }
    ensures file { IsRunFrom start file_row }
    ensures failed_cleaning { IsRunFrom start failed_cleaning_row }
    ensures closed { IsRunFrom start closed_row }
    ensures rid_again { IsRunFrom start rid_again_row }
    ensures one_resource { IsRunFrom one_resource one_resource_row }
    ensures two_sessions { IsRunFrom two_sessions two_sessions_row }
{}

/// So are those on refusals, full heaps and names.
pub fn refusal_rows_are_runs()
    ensures refused { IsRunFrom start refused_row }
    ensures wrong_moment { IsRunFrom start wrong_moment_row }
    ensures exhausted { IsRunFrom late_start exhausted_row }
    ensures full_heap { IsRunFrom start full_heap_row }
    ensures soft_full { IsRunFrom start soft_full_row }
    ensures names { IsRunFrom start names_row }
    ensures names_full { IsRunFrom start names_full_row }
{}

/// So are those with background collections.
pub fn cycle_rows_are_runs()
    ensures cycle { IsRunFrom start cycle_row }
    ensures snapshot { IsRunFrom start snapshot_row }
    ensures deref_in_cycle { IsRunFrom start deref_in_cycle_row }
    ensures seen_reference { IsRunFrom start seen_reference_row }
    ensures soft_cleared_in_cycle { IsRunFrom start soft_cleared_in_cycle_row }
    ensures soft_kept_in_cycle { IsRunFrom start soft_kept_in_cycle_row }
    ensures waiting_collect { IsRunFrom start waiting_collect_row }
    ensures full_heap_in_cycle { IsRunFrom start full_heap_in_cycle_row }
    ensures poll_in_cycle { IsRunFrom start poll_in_cycle_row }
    ensures many_dropped { IsRunFrom start many_dropped_row }
{}

/// Entries that no legal machine writes: a collection that clears and removes nothing; one of two weak references kept;
/// a soft reference cleared alone; a reference that the program cleared put on the pending list; one appended twice; an
/// action taken up twice; a file given through a closed guard; a heap full while there is room.
pub fn wrong_entries_are_not_legal()
    ensures gc_must_clear { ¬ (IsLegal (after_all start weak_dropped) gc_keeping_all) }
    ensures both_weak_are_cleared { ¬ (IsLegal (after_all start first_weak_cleared) second_weak_kept) }
    ensures held_soft_is_not_cleared_alone { ¬ (IsLegal (after_all start soft_chain_dropped) held_soft_cleared) }
    ensures kept_soft_gives_its_referent { ¬ (IsLegal (after_all start soft_chain_kept) held_soft_gives_null) }
    ensures cleared_by_program_is_not_pended { ¬ (IsLegal (after_all start cleared_by_program) cleared_is_pended) }
    ensures handler_does_not_append_again { ¬ (IsLegal (after_all start enqueued_by_program) handler_appends_again) }
    ensures an_action_is_taken_up_once { ¬ (IsLegal (after_all start entries_taken_by_cleaner) taken_again) }
    ensures a_closed_guard_gives_nothing { ¬ (IsLegal (after_all start rid_used_again) closed_is_out) }
    ensures a_full_heap_needs_a_collection { ¬ (IsLegal (after_all two_cells one_dropped) full_without_collection) }
    ensures a_full_heap_has_no_room { ¬ (IsLegal (after_all two_cells one_dropped) full_with_room) }
{}
