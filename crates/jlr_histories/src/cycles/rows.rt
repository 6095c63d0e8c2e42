//! What was seen in a worked run. Each function's contract is the law, and its body is empty.

ghost use Rattle.std.specs.Prelude.{◌≡◌, [], ◌∷◌, true, take};
ghost use Rattle.jlr_machine.specs.Edges.{roots};
ghost use Rattle.jlr_laws.specs.Rows.{start, after_all};
ghost use Rattle.jlr_laws.specs.CycleRows.{seen_reference_row};

/// In the worked row on what was seen the sixth entry opens a cycle and sees the queue at slot 0 and the reference at
/// slot 2. The seventh drops the reference: only the queue is a root then, and the reference stays seen.
pub fn a_dropped_reference_stays_seen_in_a_row()
    ensures seen { (after_all start (take 6 seen_reference_row)).seen ≡ 0 ∷ 2 ∷ [] }
    ensures open { (after_all start (take 7 seen_reference_row)).cycle_open ≡ true }
    ensures dropped { roots (after_all start (take 7 seen_reference_row)) ≡ 0 ∷ [] }
    ensures stays { (after_all start (take 7 seen_reference_row)).seen ≡ 0 ∷ 2 ∷ [] }
{}
