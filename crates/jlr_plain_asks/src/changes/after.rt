//! What an ask that is not refused leaves, its collection being done.
ghost use Rattle.std.specs.Prelude.{◌≡◌, ◌+◌, ◌^◌, ◌<◌, [], false, true, OnOk, OnErr};
ghost use Rattle.jlr_types.specs.declared.FieldValue.TheVariants.{Ref};
ghost use Rattle.jlr_machine.specs.Objects.{set_at, with_reference};
ghost use Rattle.jlr_machine.specs.Lookups.{on, with_object, slot_named, guard_named, cleanable_at, cleanable_of_guard};
ghost use Rattle.jlr_machine.specs.Lookups.{job_of, bound, unbound};
ghost use Rattle.jlr_machine.specs.Refusals.{given};
ghost use Rattle.jlr_machine.specs.Calls.{fresh_session, with_given, field_set, unreferred, enqueued, poll_given};
ghost use Rattle.jlr_machine.specs.Calls.{cleaned, guard_fenced, opened, checked_out, checked_in, finished, free_again};
ghost use Rattle.jlr_machine.specs.Calls.{after};
ghost use Rattle.jlr_plain_asks.specs.Counts.{HaveRoom, HasNextAction};
ghost use Rattle.jlr_plain_asks.specs.Making.{comes_with};

use crate::changes::calls::{check_in, check_out, fenced_guard, finish, open};
use crate::changes::lists::{name_bound, name_unbound};
use crate::changes::making::{make_asked, ready_for};
use crate::changes::objects::{Change, change_in};
use crate::changes::queues::{enqueue, hand_over, hold, poll_for};
use crate::changes::sessions::{SessionChange, change_seat, new_session, put_seat};
use crate::changes::takes::{clean_by, take_line};
use crate::given::given_by;
use crate::lookups::{cleanable_in, guarded_cleanable, named_guard, named_slot, running_job};
use jlr_machine::ask::{Answer, Ask, Outcome};
use jlr_machine::items::Items;
use jlr_machine::machine::Machine;
use jlr_machine::text::Name;
use jlr_types::{ActionNo, FieldNo, FieldValue, Handle, Mutator, Slot};
use std::alloc::{AllocError, Global};

fn join(alloc: Global, machine: &mut Machine, mutator: Mutator) -> Result<(), AllocError>
    ensures ok { OnOk result
        (machine.new ≡ record machine.old { mutators = set_at machine.old.mutators mutator fresh_session }) }
    ensures err { OnErr result (machine.new ≡ machine.old) }
{
    let session = new_session(alloc)?;
    put_seat(alloc, machine, mutator, Some(session));
    Ok(())
}

fn set_field(
    alloc: Global,
    machine: &mut Machine,
    mutator: Mutator,
    object: Handle,
    field: FieldNo,
    value: FieldValue,
)
    ensures { machine.new ≡ field_set machine.old mutator object field value }
{
    if let Some(slot) = named_slot(machine, mutator, object) {
        change_in(alloc, machine, slot, Change::Set(field, value));
    }
}

fn clear(alloc: Global, machine: &mut Machine, mutator: Mutator, reference: Handle)
    ensures { machine.new ≡ on (slot_named machine.old mutator reference)
        (λ s. with_object machine.old s (with_reference unreferred)) machine.old }
{
    if let Some(slot) = named_slot(machine, mutator, reference) {
        change_in(alloc, machine, slot, Change::Unrefer);
    }
}

fn enqueue_named(
    alloc: Global,
    machine: &mut Machine,
    mutator: Mutator,
    reference: Handle,
) -> Result<(), AllocError>
    ensures ok { OnOk result
        (machine.new ≡ on (slot_named machine.old mutator reference) (enqueued machine.old) machine.old) }
    ensures err { OnErr result (machine.new ≡ machine.old) }
{
    match named_slot(machine, mutator, reference) {
        Some(slot) => enqueue(alloc, machine, slot),
        None => Ok(()),
    }
}

fn clean_at(
    alloc: Global,
    machine: &mut Machine,
    mutator: Mutator,
    slot: Slot,
) -> Result<(), AllocError>
    requires { machine.old.taken + 1 < 2 ^ 64 }
    ensures ok { OnOk result (machine.new ≡ cleaned machine.old mutator slot (cleanable_at machine.old slot)) }
    ensures err { OnErr result (machine.new ≡ machine.old) }
{
    let cleanable = cleanable_in(machine, slot);
    clean_by(alloc, machine, mutator, slot, cleanable)
}

fn clean(
    alloc: Global,
    machine: &mut Machine,
    mutator: Mutator,
    slot: Option<Slot>,
) -> Result<(), AllocError>
    requires { machine.old.taken + 1 < 2 ^ 64 }
    ensures ok { OnOk result
        (machine.new ≡ on slot (λ s. cleaned machine.old mutator s (cleanable_at machine.old s)) machine.old) }
    ensures err { OnErr result (machine.new ≡ machine.old) }
{
    match slot {
        Some(slot) => clean_at(alloc, machine, mutator, slot),
        None => Ok(()),
    }
}

fn open_fenced(
    alloc: Global,
    machine: &mut Machine,
    mutator: Mutator,
    outcome: Outcome,
) -> Result<(), AllocError>
    ensures ok { OnOk result (machine.new ≡ on (guard_fenced machine.old mutator)
        (λ g. opened machine.old mutator g outcome) machine.old) }
    ensures err { OnErr result (machine.new ≡ machine.old) }
{
    match fenced_guard(machine, mutator) {
        Some(guard) => open(alloc, machine, mutator, guard, outcome),
        None => Ok(()),
    }
}

fn check_out_named(
    alloc: Global,
    machine: &mut Machine,
    mutator: Mutator,
    guard: Handle,
) -> Result<(), AllocError>
    ensures ok { OnOk result (machine.new ≡ on (guard_named machine.old mutator guard)
        (checked_out machine.old mutator (slot_named machine.old mutator guard)) machine.old) }
    ensures err { OnErr result (machine.new ≡ machine.old) }
{
    let fence = named_slot(machine, mutator, guard);
    match named_guard(machine, mutator, guard) {
        Some(guard) => check_out(alloc, machine, mutator, fence, guard),
        None => Ok(()),
    }
}

fn check_in_fenced(alloc: Global, machine: &mut Machine, mutator: Mutator) -> Result<(), AllocError>
    ensures ok { OnOk result
        (machine.new ≡ on (guard_fenced machine.old mutator) (checked_in machine.old mutator) machine.old) }
    ensures err { OnErr result (machine.new ≡ machine.old) }
{
    match fenced_guard(machine, mutator) {
        Some(guard) => check_in(alloc, machine, mutator, guard),
        None => Ok(()),
    }
}

fn finish_action(
    alloc: Global,
    machine: &mut Machine,
    by: u8,
    action: ActionNo,
    outcome: Outcome,
) -> Result<(), AllocError>
    requires ok { machine.old.ok + 1 < 2 ^ 64 }
    requires failed { machine.old.failed + 1 < 2 ^ 64 }
    ensures ok { OnOk result (machine.new ≡ on (job_of machine.old action)
        (λ job. free_again (finished machine.old job outcome) by) machine.old) }
    ensures err { OnErr result (machine.new ≡ machine.old) }
{
    match running_job(machine, action) {
        Some(job) => finish(alloc, machine, by, job, outcome),
        None => Ok(()),
    }
}

fn bind_slot(
    alloc: Global,
    machine: &mut Machine,
    name: &Name,
    slot: Slot,
) -> Result<(), AllocError>
    ensures ok { OnOk result (machine.new ≡ record machine.old { names = bound machine.old.names name.now slot }) }
    ensures err { OnErr result (machine.new ≡ machine.old) }
{
    let names = name_bound(alloc, machine.names.as_slice(), name, slot)?;
    machine.names = Items::from_vec(names);
    Ok(())
}

fn bind(
    alloc: Global,
    machine: &mut Machine,
    mutator: Mutator,
    name: &Name,
    object: Handle,
) -> Result<(), AllocError>
    ensures ok { OnOk result (machine.new ≡ on (slot_named machine.old mutator object)
        (λ s. record machine.old { names = bound machine.old.names name.now s }) machine.old) }
    ensures err { OnErr result (machine.new ≡ machine.old) }
{
    match named_slot(machine, mutator, object) {
        Some(slot) => bind_slot(alloc, machine, name, slot),
        None => Ok(()),
    }
}

fn unbind(alloc: Global, machine: &mut Machine, name: &Name) -> Result<(), AllocError>
    ensures ok { OnOk result (machine.new ≡ record machine.old { names = unbound machine.old.names name.now }) }
    ensures err { OnErr result (machine.new ≡ machine.old) }
{
    let names = name_unbound(alloc, machine.names.as_slice(), name.as_slice())?;
    machine.names = Items::from_vec(names);
    Ok(())
}

fn hold_given(alloc: Global, machine: &mut Machine, mutator: Mutator, ask: &Ask)
    ensures { machine.new ≡ with_given machine.old mutator (given machine.old ask.now) }
{
    let slot = given_by(machine, ask);
    hold(alloc, machine, mutator, slot);
}

fn poll_asked(alloc: Global, machine: &mut Machine, mutator: Mutator, queue: Handle, ask: &Ask)
    ensures { machine.new ≡ poll_given machine.old mutator queue (given machine.old ask.now) }
{
    let slot = given_by(machine, ask);
    poll_for(alloc, machine, mutator, queue, slot);
}

fn put(
    alloc: Global,
    machine: &mut Machine,
    mutator: Mutator,
    object: Handle,
    field: FieldNo,
    value: Handle,
)
    ensures { machine.new ≡ field_set machine.old mutator object field (Ref (slot_named machine.old mutator value)) }
{
    let slot = named_slot(machine, mutator, value);
    set_field(
        alloc,
        machine,
        mutator,
        object,
        field,
        FieldValue::Ref(slot),
    );
}

fn close(
    alloc: Global,
    machine: &mut Machine,
    mutator: Mutator,
    guard: Handle,
) -> Result<(), AllocError>
    requires { machine.old.taken + 1 < 2 ^ 64 }
    ensures ok { OnOk result (machine.new ≡ on (cleanable_of_guard machine.old mutator guard)
        (λ s. cleaned machine.old mutator s (cleanable_at machine.old s)) machine.old) }
    ensures err { OnErr result (machine.new ≡ machine.old) }
{
    let slot = guarded_cleanable(machine, mutator, guard);
    clean(alloc, machine, mutator, slot)
}

fn clean_named(
    alloc: Global,
    machine: &mut Machine,
    mutator: Mutator,
    cleanable: Handle,
) -> Result<(), AllocError>
    requires { machine.old.taken + 1 < 2 ^ 64 }
    ensures ok { OnOk result (machine.new ≡ on (slot_named machine.old mutator cleanable)
        (λ s. cleaned machine.old mutator s (cleanable_at machine.old s)) machine.old) }
    ensures err { OnErr result (machine.new ≡ machine.old) }
{
    let slot = named_slot(machine, mutator, cleanable);
    clean(alloc, machine, mutator, slot)
}

fn abandon(alloc: Global, machine: &mut Machine)
    ensures { machine.new ≡ record machine.old { cycle_open = false; seen = [] } }
{
    machine.cycle_open = false;
    machine.seen = Items::new(alloc);
}

/// An ask that may come with a collection: what takes memory is made first.
fn make_now(
    alloc: Global,
    machine: &mut Machine,
    ask: &Ask,
    answer: &Answer,
    fresh: &[Slot],
) -> Result<(), AllocError>
    requires comes { comes_with ask.now ≡ true }
    requires actions { HasNextAction machine.old.next_action ask.now }
    ensures ok { OnOk result (machine.new ≡ after machine.old ask.now answer.now fresh.now) }
    ensures err { OnErr result (machine.new ≡ machine.old) }
{
    let ready = ready_for(alloc, machine, ask, answer)?;
    make_asked(alloc, machine, ask, answer, fresh, ready);
    Ok(())
}

/// Carries out an ask that is not refused; one that is not named here changes nothing of its own. Where it takes
/// memory, that comes before the first change.
///
/// # Errors
/// `AllocError` where there is no memory. The machine is then as it was.
pub fn after_plain(
    alloc: Global,
    machine: &mut Machine,
    ask: &Ask,
    answer: &Answer,
    fresh: &[Slot],
) -> Result<(), AllocError>
    requires counts { HaveRoom machine.old }
    requires actions { HasNextAction machine.old.next_action ask.now }
    ensures ok { OnOk result (machine.new ≡ after machine.old ask.now answer.now fresh.now) }
    ensures err { OnErr result (machine.new ≡ machine.old) }
{
    match ask {
        Ask::Join { mutator } => return join(alloc, machine, *mutator),
        Ask::Leave { mutator } => put_seat(alloc, machine, *mutator, None),
        Ask::New { .. }
        | Ask::Array { .. }
        | Ask::MakeRef { .. }
        | Ask::MakeQueue { .. }
        | Ask::MakeCleaner { .. }
        | Ask::Register { .. }
        | Ask::Prepare { .. } => return make_now(alloc, machine, ask, answer, fresh),
        Ask::Put {
            mutator,
            object,
            field,
            value,
        } => put(alloc, machine, *mutator, *object, *field, *value),
        Ask::SetInt {
            mutator,
            object,
            field,
            value,
        } => {
            let value = FieldValue::Int(*value);
            set_field(alloc, machine, *mutator, *object, *field, value);
        }
        Ask::Get { mutator, .. }
        | Ask::Dup { mutator, .. }
        | Ask::Deref { mutator, .. }
        | Ask::Find { mutator, .. } => hold_given(alloc, machine, *mutator, ask),
        Ask::Drop { mutator, object } => {
            change_seat(alloc, machine, *mutator, SessionChange::Release(*object));
        }
        Ask::Clear { mutator, reference } => clear(alloc, machine, *mutator, *reference),
        Ask::Enqueue { mutator, reference } => {
            return enqueue_named(alloc, machine, *mutator, *reference);
        }
        Ask::Poll { mutator, queue } | Ask::Remove { mutator, queue } => {
            poll_asked(alloc, machine, *mutator, *queue, ask);
        }
        Ask::Clean { mutator, cleanable } => {
            return clean_named(alloc, machine, *mutator, *cleanable);
        }
        Ask::Opened { mutator, outcome } => {
            return open_fenced(alloc, machine, *mutator, *outcome);
        }
        Ask::CheckOut { mutator, guard } => {
            return check_out_named(alloc, machine, *mutator, *guard);
        }
        Ask::CheckIn { mutator, .. } => return check_in_fenced(alloc, machine, *mutator),
        Ask::Close { mutator, guard } => return close(alloc, machine, *mutator, *guard),
        Ask::Finish {
            by,
            action,
            outcome,
        } => return finish_action(alloc, machine, *by, *action, *outcome),
        Ask::Bind {
            mutator,
            name,
            object,
        } => return bind(alloc, machine, *mutator, name, *object),
        Ask::Unbind { name, .. } => return unbind(alloc, machine, name),
        Ask::HandOver => return hand_over(alloc, machine),
        Ask::TakeUp => return take_line(alloc, machine),
        Ask::Begin => machine.cycle_open = true,
        Ask::Abandon => abandon(alloc, machine),
        _ => {}
    }
    Ok(())
}
