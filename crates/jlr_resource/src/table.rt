//! The table of resources.
ghost use Rattle.std.specs.Prelude.{◌≡◌, ◌≢◌, ℕ, ◌≤◌, ◌<◌, ◌+◌, ◌^◌, ◌∷◌, ◌++◌, ◌↔◌, ◌⊎◌, [], length, nat_le, Some};
ghost use Rattle.std.specs.Prelude.{None, Err, IfOk, IfErr, OnErr, OnOk, IsOk, IsSome};
ghost use Rattle.std.specs.Option.{option_to_list};
ghost use Rattle.std.specs.List.Sorted.{IsPermutation};
ghost use Rattle.jlr_machine.specs.Lookups.{with_resource};
ghost use Rattle.jlr_machine.specs.declared.machine.ResourceState.TheVariants as state;
ghost use Rattle.jlr_resource.specs.declared.place.Kept.TheVariants as kept;
ghost use Rattle.jlr_resource.specs.Resources.{resources, resources_in, resource_in, state_in, resource_in_state};
ghost use Rattle.jlr_resource.specs.Resources.{ended};
ghost use Rattle.jlr_resource.specs.Resources.{resource_state_at, kept_at, kept_in, values, values_in, value_of};
ghost use Rattle.jlr_resource.specs.Resources.{state_of};
ghost use Rattle.jlr_resource.specs.Resources.{opening, changed, removed, with_held, with_kept, without_held};
ghost use Rattle.jlr_resource.specs.Places.{held_by, AreRids};

use crate::place::{Kept, Place};
use jlr_machine::items::Items;
use jlr_machine::machine::{Resource, ResourceState};
use jlr_types::{ActionNo, Refusal, Rid};
use slab::Slab;
use std::alloc::{AllocError, Global};
use std::marker::Model;
use std::mem;

/// The resources that have not ended, each at its Rid. `R` need not be `Drop`: no resource is lost in the table.
#[derive(Drop)]
pub struct Table<R> {
    places: Slab<Place<R>>,
    limit: u32,
}

impl<R> Model for Table<R> {
    ghost use Rattle.jlr_resource.specs.Resources.{Resources};
    ghost use Rattle.jlr_resource.specs.Places.{held_by, AreRids};

    ghost Value = { Resources R };

    ghost view = { λ t. record {
      held = held_by t.places;
      limit = t.limit;
      room = t.places.capacity;
      next = t.places.vacant_key;
    } };

    ghost invariant = { λ t. AreRids t.places };
}

impl<R> Table<R> {
    /// A table that holds nothing and may hold `limit` resources. It takes no memory.
    pub fn new(alloc: Global, limit: u32) -> Self
        ensures { result ≡ record { held = []; limit = limit; room = 0; next = 0 } }
    {
        Table {
            places: Slab::new(alloc),
            limit,
        }
    }

    /// How many resources have not ended.
    pub fn count(&self) -> usize
        ensures { result ≡ length (resources self.now) }
    {
        self.places.len()
    }

    /// How many resources the table may hold.
    pub fn limit(&self) -> u32
        ensures { result ≡ self.now.limit }
    {
        self.limit
    }

    /// Whether as many resources are open as the table may hold.
    pub fn is_full(&self) -> bool
        ensures { result ≡ nat_le self.now.limit (length (resources self.now)) }
    {
        self.count() >= self.limit as usize
    }

    /// Where the resource at a Rid is, if there is one.
    pub fn state(&self, rid: Rid) -> Option<ResourceState>
        ensures { result ≡ resource_state_at self.now rid }
    {
        state(&self.places, rid)
    }

    /// Makes room for one resource more: then a `prepare` finds memory.
    ///
    /// # Errors
    /// `NoMemory` where there is no room and none can be made, also where the next place has no number below 2^32.
    /// Nothing has changed then but the room.
    pub fn reserve(&mut self) -> Result<(), Refusal>
        ensures room { OnOk result (length (resources self.new) < self.new.room) }
        ensures next { OnOk result (self.new.next < 2 ^ 32) }
        ensures refused { IfErr result (λ r. r ≡ Refusal.NoMemory) }
        ensures succeeds { length (resources self.old) < self.old.room → self.old.next < 2 ^ 32 → IsOk result }
        ensures grows { self.old.room ≤ self.new.room }
        ensures rest { self.new ≡ record self.old { room = self.new.room } }
    {
        make_room(&mut self.places)
    }

    /// A resource is about to be opened, for this cleaning action. It is Opening, at a Rid that no resource has.
    ///
    /// # Errors
    /// `ResourcesFull` where the table holds as many as it may; `NoMemory` where it has no room and cannot grow, also
    /// where the next place has no number below 2^32. Nothing has changed then but the room.
    pub fn prepare(&mut self, action: ActionNo) -> Result<Rid, Refusal>
        ensures full { (result ≡ Err Refusal.ResourcesFull) ↔ (self.old.limit ≤ length (resources self.old)) }
        ensures next { IfOk result (λ rid. (rid ≡ self.old.next) × (rid < 2 ^ 32)) }
        ensures free { IfOk result (λ rid. resource_in (resources self.old) rid ≡ None) }
        ensures held { IfOk result (λ rid. self.new.held ≡ opening self.old rid action) }
        ensures state { IfOk result (λ rid. resource_state_at self.new rid ≡ Some state.Opening) }
        ensures others { IfOk result (λ rid. (other : ℕ) → other ≢ rid
            → kept_at self.new other ≡ kept_at self.old other) }
        ensures resources { IfOk result (λ rid. resources self.new
            ≡ with_resource (resources self.old) (record { rid = rid; action = action; state = state.Opening })) }
        ensures refused { IfErr result (λ r. (r ≡ Refusal.ResourcesFull) ⊎ (r ≡ Refusal.NoMemory)) }
        ensures no_room { result ≡ Err Refusal.NoMemory → (self.old.room ≤ length (resources self.old))
            ⊎ (2 ^ 32 ≤ self.old.next) }
        ensures err { OnErr result (self.new.held ≡ self.old.held) }
        ensures err_next { OnErr result (self.new.next ≡ self.old.next) }
        ensures untouched { result ≡ Err Refusal.ResourcesFull → self.new ≡ self.old }
        ensures values { values self.new ≡ values self.old }
        ensures limit { self.new.limit ≡ self.old.limit }
        ensures room { self.old.room ≤ self.new.room }
    {
        if self.is_full() {
            return Err(Refusal::ResourcesFull);
        }
        place_for(&mut self.places, action)
    }

    /// The open ended well: the resource is Idle, and lies here.
    pub fn opened(&mut self, rid: Rid, resource: R)
        requires { resource_state_at self.old rid ≡ Some state.Opening }
        ensures idle { self.new ≡ changed self.old rid (kept.Idle resource) }
        ensures lies_here { kept_at self.new rid ≡ Some (kept.Idle resource) }
        ensures state { resource_state_at self.new rid ≡ Some state.Idle }
        ensures others { (other : ℕ) → other ≢ rid → kept_at self.new other ≡ kept_at self.old other }
        ensures resources { resources self.new ≡ resource_in_state (resources self.old) rid state.Idle }
        ensures values { IsPermutation (resource ∷ values self.old) (values self.new) }
    {
        match exchange(&mut self.places, rid, Kept::Idle(resource)) {
            Kept::Opening => {}
            Kept::Out | Kept::Closing => unreachable!(),
            Kept::Idle(_resource) => unreachable!(),
        }
    }

    /// A call begins: the resource that was put in last for this Rid goes out.
    pub fn check_out(&mut self, rid: Rid) -> R
        requires { resource_state_at self.old rid ≡ Some state.Idle }
        ensures put_in_last { kept_at self.old rid ≡ Some (kept.Idle result) }
        ensures out { self.new ≡ changed self.old rid kept.Out }
        ensures state { resource_state_at self.new rid ≡ Some state.Out }
        ensures others { (other : ℕ) → other ≢ rid → kept_at self.new other ≡ kept_at self.old other }
        ensures resources { resources self.new ≡ resource_in_state (resources self.old) rid state.Out }
        ensures values { IsPermutation (values self.old) (result ∷ values self.new) }
    {
        match exchange(&mut self.places, rid, Kept::Out) {
            Kept::Idle(resource) => resource,
            Kept::Opening | Kept::Out | Kept::Closing => unreachable!(),
        }
    }

    /// The call has ended, well or not: the resource is Idle, and lies here again.
    pub fn check_in(&mut self, rid: Rid, returned: R)
        requires { resource_state_at self.old rid ≡ Some state.Out }
        ensures idle { self.new ≡ changed self.old rid (kept.Idle returned) }
        ensures lies_here { kept_at self.new rid ≡ Some (kept.Idle returned) }
        ensures state { resource_state_at self.new rid ≡ Some state.Idle }
        ensures others { (other : ℕ) → other ≢ rid → kept_at self.new other ≡ kept_at self.old other }
        ensures resources { resources self.new ≡ resource_in_state (resources self.old) rid state.Idle }
        ensures values { IsPermutation (returned ∷ values self.old) (values self.new) }
    {
        match exchange(&mut self.places, rid, Kept::Idle(returned)) {
            Kept::Out => {}
            Kept::Opening | Kept::Closing => unreachable!(),
            Kept::Idle(_resource) => unreachable!(),
        }
    }

    /// Its cleaning action was taken up: the resource that was put in last for this Rid goes out to be finished.
    pub fn take_for_close(&mut self, rid: Rid) -> R
        requires { resource_state_at self.old rid ≡ Some state.Idle }
        ensures put_in_last { kept_at self.old rid ≡ Some (kept.Idle result) }
        ensures closing { self.new ≡ changed self.old rid kept.Closing }
        ensures state { resource_state_at self.new rid ≡ Some state.Closing }
        ensures others { (other : ℕ) → other ≢ rid → kept_at self.new other ≡ kept_at self.old other }
        ensures resources { resources self.new ≡ resource_in_state (resources self.old) rid state.Closing }
        ensures values { IsPermutation (values self.old) (result ∷ values self.new) }
    {
        match exchange(&mut self.places, rid, Kept::Closing) {
            Kept::Idle(resource) => resource,
            Kept::Opening | Kept::Out | Kept::Closing => unreachable!(),
        }
    }

    /// The resource has ended: it was finished, or its open failed. Its Rid is free, and there is room for the next
    /// one.
    pub fn closed(&mut self, rid: Rid)
        requires { (resource_state_at self.old rid ≡ Some state.Closing) ⊎ (resource_state_at self.old rid
            ≡ Some state.Opening) }
        ensures gone { self.new ≡ removed self.old rid }
        ensures state { resource_state_at self.new rid ≡ None }
        ensures others { (other : ℕ) → other ≢ rid → kept_at self.new other ≡ kept_at self.old other }
        ensures resources { resources self.new ≡ ended (resources self.old) rid }
        ensures values { values self.new ≡ values self.old }
        ensures room { length (resources self.new) < self.new.room }
    {
        match remove(&mut self.places, rid) {
            Kept::Opening | Kept::Closing => {}
            Kept::Out => unreachable!(),
            Kept::Idle(_resource) => unreachable!(),
        }
    }

    /// The resources as plain data, with rising Rids.
    ///
    /// # Errors
    /// `AllocError` where there is no memory for them.
    pub fn image(&self, alloc: Global) -> Result<Items<Resource>, AllocError>
        ensures { IfOk result (λ items. items ≡ resources self.now) }
    {
        Ok(Items::from_vec(images(alloc, &self.places)?))
    }
}

fn state<R>(places: &Slab<Place<R>>, rid: Rid) -> Option<ResourceState>
    ensures { result ≡ state_in (resources_in (held_by places.now)) rid }
{
    match places.get(rid.number() as usize) {
        Some(place) => Some(place.kept.state()),
        None => None,
    }
}

fn images<R>(alloc: Global, places: &Slab<Place<R>>) -> Result<Vec<Resource>, AllocError>
    requires { AreRids places.now }
    ensures { IfOk result (λ items. items.items ≡ resources_in (held_by places.now)) }
{
    let mut items = Vec::new(alloc);
    for (key, place) in places.iter() {
        items.push(Resource {
            rid: Rid::new(key as u32),
            action: place.action,
            state: place.kept.state(),
        })?;
    }
    Ok(items)
}

/// Makes room for one more place, whose number is below 2^32.
fn make_room<R>(places: &mut Slab<Place<R>>) -> Result<(), Refusal>
    requires { AreRids places.old }
    ensures rids { AreRids places.new }
    ensures room { OnOk result (length (resources_in (held_by places.new)) < places.new.capacity) }
    ensures next { OnOk result (places.new.vacant_key < 2 ^ 32) }
    ensures refused { IfErr result (λ r. r ≡ Refusal.NoMemory) }
    ensures succeeds { length (resources_in (held_by places.old)) < places.old.capacity → places.old.vacant_key < 2 ^ 32
        → IsOk result }
    ensures grows { places.old.capacity ≤ places.new.capacity }
    ensures held { held_by places.new ≡ held_by places.old }
    ensures same_next { places.new.vacant_key ≡ places.old.vacant_key }
{
    let reserved = places.reserve(1);
    if reserved.is_err() {
        return Err(Refusal::NoMemory);
    }
    if places.vacant_key() > u32::MAX as usize {
        return Err(Refusal::NoMemory);
    }
    Ok(())
}

/// Takes the next place, if it can be had and its number is below 2^32.
fn place_for<R>(places: &mut Slab<Place<R>>, action: ActionNo) -> Result<Rid, Refusal>
    requires { AreRids places.old }
    ensures rids { AreRids places.new }
    ensures next { IfOk result (λ rid. (rid ≡ places.old.vacant_key) × (rid < 2 ^ 32)) }
    ensures free { IfOk result (λ rid. resource_in (resources_in (held_by places.old)) rid ≡ None) }
    ensures state { IfOk result (λ rid. state_in (resources_in (held_by places.new)) rid ≡ Some state.Opening) }
    ensures others { IfOk result (λ rid. (other : ℕ) → other ≢ rid
        → kept_in (held_by places.new) other ≡ kept_in (held_by places.old) other) }
    ensures held { IfOk result (λ rid. held_by places.new
        ≡ with_held (held_by places.old) (record { rid = rid; action = action; kept = kept.Opening })) }
    ensures resources { IfOk result (λ rid. resources_in (held_by places.new)
        ≡ with_resource (resources_in (held_by places.old))
        (record { rid = rid; action = action; state = state.Opening })) }
    ensures no_room { IfErr result (λ r. (r ≡ Refusal.NoMemory)
        × ((places.old.capacity ≤ length (resources_in (held_by places.old))) ⊎ (2 ^ 32 ≤ places.old.vacant_key))) }
    ensures err { OnErr result (held_by places.new ≡ held_by places.old) }
    ensures err_next { OnErr result (places.new.vacant_key ≡ places.old.vacant_key) }
    ensures values { values_in (held_by places.new) ≡ values_in (held_by places.old) }
    ensures room { places.old.capacity ≤ places.new.capacity }
{
    if places.reserve(1).is_err() {
        return Err(Refusal::NoMemory);
    }
    let key = places.vacant_key();
    if key > u32::MAX as usize {
        return Err(Refusal::NoMemory);
    }
    places.insert_reserved(Place {
        action,
        kept: Kept::Opening,
    });
    Ok(Rid::new(key as u32))
}

/// Puts what is kept of a resource, and hands out what was kept before.
fn exchange<R>(places: &mut Slab<Place<R>>, rid: Rid, kept: Kept<R>) -> Kept<R>
    requires rids { AreRids places.old }
    requires held { IsSome (state_in (resources_in (held_by places.old)) rid) }
    ensures rids { AreRids places.new }
    ensures before { kept_in (held_by places.old) rid ≡ Some result }
    ensures state_before { state_in (resources_in (held_by places.old)) rid ≡ Some (state_of result) }
    ensures after { kept_in (held_by places.new) rid ≡ Some kept }
    ensures state_after { state_in (resources_in (held_by places.new)) rid ≡ Some (state_of kept) }
    ensures others { (other : ℕ) → other ≢ rid
        → kept_in (held_by places.new) other ≡ kept_in (held_by places.old) other }
    ensures held { held_by places.new ≡ with_kept (held_by places.old) rid kept }
    ensures resources { resources_in (held_by places.new)
        ≡ resource_in_state (resources_in (held_by places.old)) rid (state_of kept) }
    ensures values { IsPermutation (option_to_list (value_of kept) ++ values_in (held_by places.old))
        (option_to_list (value_of result) ++ values_in (held_by places.new)) }
    ensures room { places.new.capacity ≡ places.old.capacity }
    ensures next { places.new.vacant_key ≡ places.old.vacant_key }
{
    let place = &mut places[rid.number() as usize];
    mem::replace(&mut place.kept, kept)
}

/// Takes a resource out of its place, and hands out what was kept.
fn remove<R>(places: &mut Slab<Place<R>>, rid: Rid) -> Kept<R>
    requires rids { AreRids places.old }
    requires held { IsSome (state_in (resources_in (held_by places.old)) rid) }
    ensures rids { AreRids places.new }
    ensures state_before { state_in (resources_in (held_by places.old)) rid ≡ Some (state_of result) }
    ensures state_after { state_in (resources_in (held_by places.new)) rid ≡ None }
    ensures others { (other : ℕ) → other ≢ rid
        → kept_in (held_by places.new) other ≡ kept_in (held_by places.old) other }
    ensures held { held_by places.new ≡ without_held (held_by places.old) rid }
    ensures resources { resources_in (held_by places.new) ≡ ended (resources_in (held_by places.old)) rid }
    ensures values { value_of result ≡ None → values_in (held_by places.new) ≡ values_in (held_by places.old) }
    ensures fewer { length (resources_in (held_by places.new)) < places.new.capacity }
    ensures room { places.new.capacity ≡ places.old.capacity }
    ensures next { places.new.vacant_key ≡ rid }
{
    let Place { kept, .. } = places.remove(rid.number() as usize);
    kept
}
