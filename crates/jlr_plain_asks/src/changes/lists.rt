//! Changes of the machine's lists.
ghost use Rattle.std.specs.Prelude.{◌≡◌, ◌==◌, ◌++◌, ◌∷◌, [], not, map, filter, if◌then◌else◌, IfOk, OnOk};
ghost use Rattle.jlr_machine.specs.declared.machine.Resource.{Resource as ResourceOf};
ghost use Rattle.jlr_machine.specs.Lookups.{bound, unbound, with_job, without_job, with_resource, last_256};

use crate::lookups::names_agree;
use jlr_machine::copy::copy_slice;
use jlr_machine::machine::{Binding, Job, Resource, ResourceState};
use jlr_machine::text::Name;
use jlr_types::{ActionNo, Rid, Slot};
use std::alloc::{AllocError, Global};

/// The most notes or faults that are kept.
const KEPT: usize = 256;

fn push_each<T: Copy>(out: &mut Vec<T>, items: &[T]) -> Result<(), AllocError>
    ensures { OnOk result (out.new.items ≡ out.old.items ++ items.now) }
{
    for &item in items {
        out.push(item)?;
    }
    Ok(())
}

/// The jobs with one more, by rising actions.
pub(crate) fn job_added(alloc: Global, jobs: &[Job], job: Job) -> Result<Vec<Job>, AllocError>
    ensures { IfOk result (λ v. v.items ≡ with_job jobs.now job) }
{
    let mut out = Vec::new(alloc);
    for i in 0..jobs.len() {
        let next = jobs[i];
        if job.action.number() < next.action.number() {
            out.push(job)?;
            push_each(&mut out, &jobs[i..])?;
            return Ok(out);
        }
        out.push(next)?;
    }
    out.push(job)?;
    Ok(out)
}

/// The jobs without that of an action.
pub(crate) fn job_removed(
    alloc: Global,
    jobs: &[Job],
    action: ActionNo,
) -> Result<Vec<Job>, AllocError>
    ensures { IfOk result (λ v. v.items ≡ without_job jobs.now action) }
{
    let mut out = Vec::new(alloc);
    for job in jobs {
        if job.action.number() != action.number() {
            out.push(*job)?;
        }
    }
    Ok(out)
}

/// The resources with one more, by rising Rids.
pub(crate) fn resource_added(
    alloc: Global,
    resources: &[Resource],
    resource: Resource,
) -> Result<Vec<Resource>, AllocError>
    ensures { IfOk result (λ v. v.items ≡ with_resource resources.now resource) }
{
    let mut out = Vec::new(alloc);
    for i in 0..resources.len() {
        let next = resources[i];
        if resource.rid.number() < next.rid.number() {
            out.push(resource)?;
            push_each(&mut out, &resources[i..])?;
            return Ok(out);
        }
        out.push(next)?;
    }
    out.push(resource)?;
    Ok(out)
}

/// A resource, in this state if it has the Rid.
fn moved(resource: &Resource, rid: Rid, state: ResourceState) -> Resource
    ensures { result ≡ (if resource.now.rid == rid then record resource.now { state = state } else resource.now) }
{
    if resource.rid.number() != rid.number() {
        return *resource;
    }
    Resource {
        rid: resource.rid,
        action: resource.action,
        state,
    }
}

/// The resources, with the one that has this Rid in that state.
pub(crate) fn resource_moved(
    alloc: Global,
    resources: &[Resource],
    rid: Rid,
    state: ResourceState,
) -> Result<Vec<Resource>, AllocError>
    ensures { IfOk result (λ v. v.items ≡ map {A = ResourceOf} {B = ResourceOf}
        (λ r. if r.rid == rid then record r { state = state } else r) resources.now) }
{
    let mut out = Vec::new(alloc);
    for resource in resources {
        out.push(moved(resource, rid, state))?;
    }
    Ok(out)
}

/// The resources without the one that has this Rid.
pub(crate) fn resource_removed(
    alloc: Global,
    resources: &[Resource],
    rid: Rid,
) -> Result<Vec<Resource>, AllocError>
    ensures { IfOk result (λ v. v.items ≡ filter (λ r. not (r.rid == rid)) resources.now) }
{
    let mut out = Vec::new(alloc);
    for resource in resources {
        if resource.rid.number() != rid.number() {
            out.push(*resource)?;
        }
    }
    Ok(out)
}

fn push_bindings(out: &mut Vec<Binding>, names: &[Binding]) -> Result<(), AllocError>
    ensures { OnOk result (out.new.items ≡ out.old.items ++ names.now) }
{
    for binding in names {
        out.push(binding.copy())?;
    }
    Ok(())
}

fn make_binding(name: &Name, slot: Slot) -> Binding
    ensures { result ≡ record { name = name.now; slot = slot } }
{
    Binding {
        name: name.copy(),
        slot,
    }
}

/// The names with this one bound; an old name keeps its place.
pub(crate) fn name_bound(
    alloc: Global,
    names: &[Binding],
    name: &Name,
    slot: Slot,
) -> Result<Vec<Binding>, AllocError>
    ensures { IfOk result (λ v. v.items ≡ bound names.now name.now slot) }
{
    let mut out = Vec::new(alloc);
    for i in 0..names.len() {
        let next = &names[i];
        if names_agree(next.name.as_slice(), name.as_slice()) {
            out.push(make_binding(name, slot))?;
            push_bindings(&mut out, &names[i + 1..])?;
            return Ok(out);
        }
        out.push(next.copy())?;
    }
    out.push(make_binding(name, slot))?;
    Ok(out)
}

/// The names without this one.
pub(crate) fn name_unbound(
    alloc: Global,
    names: &[Binding],
    name: &[u8],
) -> Result<Vec<Binding>, AllocError>
    ensures { IfOk result (λ v. v.items ≡ unbound names.now name.now) }
{
    let mut out = Vec::new(alloc);
    for binding in names {
        if !names_agree(binding.name.as_slice(), name) {
            out.push(binding.copy())?;
        }
    }
    Ok(out)
}

/// These with one more, of which the last 256 are kept.
pub(crate) fn last_with<T: Copy>(alloc: Global, items: &[T], item: T) -> Result<Vec<T>, AllocError>
    ensures { IfOk result (λ v. v.items ≡ last_256 (items.now ++ item ∷ [])) }
{
    let mut all = copy_slice(alloc, items)?;
    all.push(item)?;
    if all.len() <= KEPT {
        return Ok(all);
    }
    let first = all.len() - KEPT;
    copy_slice(alloc, &all[first..])
}
