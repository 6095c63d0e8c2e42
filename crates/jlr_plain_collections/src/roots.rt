//! The roots of a machine, as a list.
ghost use Rattle.std.specs.Prelude.{◌≡◌, ◌≤◌, ◌^◌, ◌++◌, cond, map, [], ◌∷◌, Some, IfOk, OnOk, Option};
ghost use Rattle.std.specs.Prelude.{option_to_list, filter_map, length};
ghost use Rattle.std.specs.List.{flat_map};
ghost use Rattle.jlr_machine.specs.declared.machine.Session.{Session as SessionOf};
ghost use Rattle.jlr_machine.specs.declared.machine.Binding.{Binding as BindingOf};
ghost use Rattle.jlr_machine.specs.Edges.{is_own_root, active_cleanables, roots};

use crate::edges::{push_all, push_option, push_options};
use jlr_machine::machine::{Binding, Machine, Session};
use jlr_machine::object::{CleanState, Object};
use jlr_types::Slot;
use std::alloc::{AllocError, Global};

fn push_handles_of(out: &mut Vec<Slot>, place: &Option<Session>) -> Result<(), AllocError>
    ensures { OnOk result (out.new.items ≡ out.old.items
        ++ flat_map (λ (s : SessionOf). filter_map (λ h. h) s.handles) (filter_map (λ s. s) (place.now ∷ []))) }
{
    match place {
        Some(session) => push_options(out, session.handles.as_slice()),
        None => Ok(()),
    }
}

fn push_all_handles(out: &mut Vec<Slot>, places: &[Option<Session>]) -> Result<(), AllocError>
    ensures { OnOk result (out.new.items ≡ out.old.items
        ++ flat_map (λ (s : SessionOf). filter_map (λ h. h) s.handles) (filter_map (λ s. s) places.now)) }
{
    for place in places {
        push_handles_of(out, place)?;
    }
    Ok(())
}

fn push_fence_of(out: &mut Vec<Slot>, place: &Option<Session>) -> Result<(), AllocError>
    ensures { OnOk result (out.new.items ≡ out.old.items
        ++ flat_map (λ (s : SessionOf). option_to_list s.fence) (filter_map (λ s. s) (place.now ∷ []))) }
{
    match place {
        Some(session) => push_option(out, session.fence),
        None => Ok(()),
    }
}

fn push_fences(out: &mut Vec<Slot>, places: &[Option<Session>]) -> Result<(), AllocError>
    ensures { OnOk result (out.new.items ≡ out.old.items
        ++ flat_map (λ (s : SessionOf). option_to_list s.fence) (filter_map (λ s. s) places.now)) }
{
    for place in places {
        push_fence_of(out, place)?;
    }
    Ok(())
}

fn push_names(out: &mut Vec<Slot>, names: &[Binding]) -> Result<(), AllocError>
    ensures { OnOk result (out.new.items ≡ out.old.items ++ map (λ (b : BindingOf). b.slot) names.now) }
{
    for binding in names {
        out.push(binding.slot)?;
    }
    Ok(())
}

fn keeps_itself(place: &Option<Object>) -> bool
    ensures { result ≡ is_own_root place.now }
{
    match place {
        Some(object) => is_active_cleanable(object),
        None => false,
    }
}

fn is_active_cleanable(object: &Object) -> bool
    ensures { result ≡ is_own_root (Some object.now) }
{
    match object {
        Object::Cleanable(c) => matches!(c.state, CleanState::Armed | CleanState::Pending),
        _ => false,
    }
}

fn push_if_active(
    out: &mut Vec<Slot>,
    place: &Option<Object>,
    number: u32,
) -> Result<(), AllocError>
    ensures { OnOk result (out.new.items ≡ out.old.items ++ cond (is_own_root place.now) (number ∷ []) []) }
{
    if keeps_itself(place) {
        out.push(Slot::new(number))?;
    }
    Ok(())
}

fn push_cleanables(out: &mut Vec<Slot>, places: &[Option<Object>]) -> Result<(), AllocError>
    requires { length places.now ≤ 2 ^ 32 }
    ensures { OnOk result (out.new.items ≡ out.old.items ++ active_cleanables 0 places.now) }
{
    for i in 0..places.len() {
        push_if_active(out, &places[i], i as u32)?;
    }
    Ok(())
}

/// The roots, behind what is there already.
fn push_roots(out: &mut Vec<Slot>, machine: &Machine) -> Result<(), AllocError>
    requires { length machine.now.objects ≤ 2 ^ 32 }
    ensures { OnOk result (out.new.items ≡ out.old.items ++ roots machine.now) }
{
    push_all_handles(out, machine.mutators.as_slice())?;
    push_fences(out, machine.mutators.as_slice())?;
    push_names(out, machine.names.as_slice())?;
    push_all(out, machine.pending.as_slice())?;
    push_all(out, machine.line.as_slice())?;
    push_cleanables(out, machine.objects.as_slice())
}

/// The slots that handles, fences and names stand for, the pending list, the line, and the Armed and Pending
/// cleanables.
pub(crate) fn roots_plain(alloc: Global, machine: &Machine) -> Result<Vec<Slot>, AllocError>
    requires { length machine.now.objects ≤ 2 ^ 32 }
    ensures { IfOk result (λ v. v.items ≡ roots machine.now) }
{
    let mut out = Vec::new(alloc);
    push_roots(&mut out, machine)?;
    Ok(out)
}
