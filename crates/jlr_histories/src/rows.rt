//! What the counts of lives come to in worked runs. Each function's contract is the law, and its body is empty.

ghost use Rattle.std.specs.Prelude.{◌≡◌, [], ◌∷◌, Some, drop, option_map, take};
ghost use Rattle.jlr_laws.specs.Rows.{start, after_all};
ghost use Rattle.jlr_laws.specs.ReferenceRows.{queue_row};
ghost use Rattle.jlr_laws.specs.CleaningRows.{cleaner_row, file_row};
ghost use Rattle.jlr_histories.specs.Lives.{LivesOn, enqueueings, take_ups, all_take_ups, outcomes, running};
ghost use Rattle.jlr_histories.specs.ResourceLives.{deeds, phase};
ghost use Rattle.jlr_histories.specs.ResourceLives.Deed.{BeginsOpen, EndsOpen, FailsOpen, BeginsCall, EndsCall};
ghost use Rattle.jlr_histories.specs.ResourceLives.Deed.{BeginsFinish, EndsFinish};
ghost use Rattle.jlr_histories.specs.ResourceLives.Phase.{In, Over};
ghost use Rattle.jlr_machine.specs.declared.machine.ResourceState.TheVariants.{Closing, Idle, Opening, Out};
ghost use Rattle.jlr_machine.specs.declared.object.CleanState.TheVariants as clean;
ghost use Rattle.jlr_machine.specs.Lookups.{cleanable_at};
ghost use Rattle.jlr_machine.specs.WellFormed.{HasResource};

/// In the worked row on a queue the reference, which the fourth entry makes at slot 2, lives to the end and is enqueued
/// once.
pub fn a_reference_is_enqueued_in_a_row()
    ensures lives { LivesOn (after_all start (take 4 queue_row)) (drop 4 queue_row) 2 }
    ensures enqueued { enqueueings (after_all start (take 4 queue_row)) (drop 4 queue_row) 2 ≡ 1 }
{}

/// In that on a cleaner action 1 is taken up once: by the cleaner, before `clean` finds it done.
pub fn an_action_is_taken_up_in_a_row()
    ensures this { take_ups 1 cleaner_row ≡ 1 }
    ensures all { all_take_ups cleaner_row ≡ 1 }
{}

/// There it has one outcome: its job runs after the eighth entry, in which the cleaner takes it up, and no more at the
/// end.
pub fn an_action_has_one_outcome_in_a_row()
    ensures one { outcomes 1 cleaner_row ≡ 1 }
    ensures runs { running (after_all start (take 8 cleaner_row)) 1 ≡ 1 }
    ensures over { running (after_all start cleaner_row) 1 ≡ 0 }
{}

/// In that on files three resources live one after another under the same Rid: the open of the first fails, the second
/// is written and finished, and the third is read twice and is idle at the end.
pub fn three_resources_live_in_a_row()
    ensures failed { deeds start file_row 1 ≡ BeginsOpen ∷ FailsOpen ∷ [] }
    ensures finished { deeds start file_row 2
        ≡ BeginsOpen ∷ EndsOpen ∷ BeginsCall ∷ EndsCall ∷ BeginsFinish ∷ EndsFinish ∷ [] }
    ensures idle { deeds start file_row 3 ≡ BeginsOpen ∷ EndsOpen ∷ BeginsCall ∷ EndsCall ∷ BeginsCall ∷ EndsCall ∷ [] }
    ensures over { phase (after_all start file_row) 2 ≡ Over }
    ensures still { phase (after_all start file_row) 3 ≡ In Idle }
{}

/// The second of them is where the laws of resources speak of it: in calls, waiting for the cleaner, and being
/// finished.
pub fn a_resource_is_called_waits_and_is_finished_in_a_row()
    ensures opening { HasResource (after_all start (take 5 file_row)) 0 2 Opening }
    ensures out { HasResource (after_all start (take 7 file_row)) 0 2 Out }
    ensures waits { option_map (λ c. c.state) (cleanable_at (after_all start (take 10 file_row)) 3)
        ≡ Some clean.Pending }
    ensures idle { HasResource (after_all start (take 10 file_row)) 0 2 Idle }
    ensures closing { HasResource (after_all start (take 12 file_row)) 0 2 Closing }
{}

/// The cleanable in the worked row on a cleaner, which the fourth entry makes at slot 2, lives to the end, Armed first
/// and Spent last.
pub fn a_cleanable_lives_in_a_row()
    ensures lives { LivesOn (after_all start (take 4 cleaner_row)) (drop 4 cleaner_row) 2 }
    ensures armed { option_map (λ c. c.state) (cleanable_at (after_all start (take 4 cleaner_row)) 2)
        ≡ Some clean.Armed }
    ensures spent { option_map (λ c. c.state) (cleanable_at (after_all start cleaner_row) 2) ≡ Some clean.Spent }
{}
