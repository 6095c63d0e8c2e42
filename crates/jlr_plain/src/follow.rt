//! A record that changes the machine where it lies, without what was seen.
ghost use Rattle.std.specs.Prelude.{◌≡◌, true, false, OnOk, OnErr};
ghost use Rattle.jlr_machine.specs.Collection.{after_collection};
ghost use Rattle.jlr_machine.specs.Run.{apply, carried};
ghost use Rattle.jlr_plain_asks.specs.Counts.{HaveRoom, HasNextAction};
ghost use Rattle.jlr_machine.specs.Refusals.{is_refusal};
ghost use Rattle.jlr_plain_asks.specs.Making.{comes_with};
ghost use Rattle.jlr_plain.specs.Records.{entry_in};
ghost use Rattle.jlr_plain.specs.Unseen.{unseen, IsLegalBefore};

use crate::following::is_refusal;
use crate::record::{Record, stand_in};
use jlr_machine::ask::Answer;
use jlr_machine::entry::Collected;
use jlr_machine::items::Items;
use jlr_machine::machine::Machine;
use jlr_plain_asks::changes::after::after_plain;
use jlr_plain_asks::changes::making::{make_asked, ready_for};
use jlr_plain_collections::left::{leave_in, make_leaving};
use std::alloc::{AllocError, Global};

/// A record that comes with no collection, and so answered.
fn follow_alone(
    alloc: Global,
    machine: &mut Machine,
    kept: &Record,
    answer: &Answer,
) -> Result<(), AllocError>
    requires counts { HaveRoom machine.old }
    requires actions { is_refusal answer.now ≡ false → HasNextAction machine.old.next_action kept.now.ask }
    ensures ok { OnOk result (machine.new ≡ carried machine.old kept.now.ask answer.now kept.now.choice.fresh) }
    ensures err { OnErr result (machine.new ≡ machine.old) }
{
    if is_refusal(answer) {
        return Ok(());
    }
    let fresh = kept.choice.fresh().as_slice();
    after_plain(alloc, machine, &kept.ask, answer, fresh)
}

/// A record that comes with a collection, and so answered. What both take memory for is made before the first change.
fn follow_collecting(
    alloc: Global,
    machine: &mut Machine,
    kept: &Record,
    answer: &Answer,
    collected: &Collected,
) -> Result<(), AllocError>
    requires comes { is_refusal answer.now ≡ false → comes_with kept.now.ask ≡ true }
    requires actions { is_refusal answer.now ≡ false → HasNextAction machine.old.next_action kept.now.ask }
    ensures ok { OnOk result (machine.new ≡ carried
        (after_collection machine.old collected.now.kept collected.now.pending) kept.now.ask answer.now
        kept.now.choice.fresh) }
    ensures err { OnErr result (machine.new ≡ machine.old) }
{
    let leaving = make_leaving(alloc, machine, collected)?;
    if is_refusal(answer) {
        leave_in(alloc, machine, &collected.kept, leaving);
        return Ok(());
    }
    let Ok(ready) = ready_for(alloc, machine, &kept.ask, answer) else {
        drop(leaving);
        return Err(AllocError);
    };
    leave_in(alloc, machine, &collected.kept, leaving);
    let fresh = kept.choice.fresh().as_slice();
    make_asked(alloc, machine, &kept.ask, answer, fresh, ready);
    Ok(())
}

#[tactic(auto, using(crate::proofs::Records::stand_in_carries))]
fn follow_either(alloc: Global, machine: &mut Machine, kept: &Record) -> Result<(), AllocError>
    requires { IsLegalBefore machine.old (entry_in machine.old kept.now) }
    ensures ok { OnOk result (unseen machine.new ≡ unseen (apply machine.old (entry_in machine.old kept.now))) }
    ensures err { OnErr result (machine.new ≡ machine.old) }
{
    let _next_action = machine.next_action;
    let answer = stand_in(kept);
    match kept.choice.collected() {
        Some(collected) => follow_collecting(alloc, machine, kept, &answer, collected),
        None => follow_alone(alloc, machine, kept, &answer),
    }
}

/// Applies the entry that a record keeps to a machine that is kept without what was seen, and leaves that out. Only
/// what the entry changes is touched; a collection passes over the cells. What takes memory comes before the first
/// change.
///
/// # Errors
/// `AllocError` where there is no memory. The machine is then as it was.
pub fn follow_plain(alloc: Global, machine: &mut Machine, kept: &Record) -> Result<(), AllocError>
    requires { IsLegalBefore machine.old (entry_in machine.old kept.now) }
    ensures ok { OnOk result (machine.new ≡ unseen (apply machine.old (entry_in machine.old kept.now))) }
    ensures err { OnErr result (machine.new ≡ machine.old) }
{
    follow_either(alloc, machine, kept)?;
    machine.seen = Items::new(alloc);
    Ok(())
}
