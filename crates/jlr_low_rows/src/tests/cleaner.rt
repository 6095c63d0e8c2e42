//! The cleaner, whose files and sockets are numbers here.
ghost use Rattle.std.specs.Prelude.{◌≡◌, ◌+◌, ◌<◌, IfSome, Some, false, true};
ghost use Rattle.jlr_machine.specs.Objects.{at};
ghost use Rattle.jlr_machine.specs.declared.machine.ResourceState.TheVariants as state;
ghost use Rattle.jlr_resource.specs.Resources.{resource_in};
ghost use Rattle.jlr_cleaner.specs.Cleanings.{HasWork};
ghost use Rattle.jlr_cleaner.specs.Jobs.{is_running, runs_job};

use super::calls::{Got, Stage, play};
use super::words::{Numbers, all_numbers, outcome, parsed, rid, small, tiny};
use jlr_cleaner::{Cleaner, Job};
use jlr_machine::ask::Outcome;
use jlr_machine::items::Items;
use jlr_machine::machine::Resource;
use jlr_resource::State;
use jlr_types::{ActionNo, Limits, Refusal, Rid, Slot, Work};
use std::alloc::{AllocError, Global};
use std::fmt::Debug;
use std::str::SplitWhitespace;
use std::test::Fail;

// The cleaner's own number as a taker.
const ITSELF: u8 = 255;

// ---- Jobs

// Registers an action at a place, if there is that place.
fn register(cleaner: &mut Cleaner<u64>, place: Slot) -> Option<ActionNo> {
    if place.number() as usize >= cleaner.places() {
        return None;
    }
    cleaner.register(place)
}

// The action that waits at a place, where this taker may take it up.
fn ready(cleaner: &Cleaner<u64>, by: u8, place: Slot) -> Option<ActionNo>
    ensures waits { IfSome result (λ action. at cleaner.now.waiting place ≡ Some action) }
    ensures not_running { IfSome result (λ action. is_running cleaner.now.jobs action ≡ false) }
    ensures free { IfSome result (λ _. runs_job cleaner.now.jobs by ≡ false) }
    ensures numbered { IfSome result (λ _. cleaner.now.taken + 1 < cleaner.now.next_action) }
{
    let action = cleaner.waits(place)?;
    let next = cleaner.next_action();
    let taken = cleaner.totals().taken;
    if cleaner.is_running(action) || cleaner.runs_job(by) || taken + 1 >= next {
        return None;
    }
    Some(action)
}

// Takes up what waits at a place as a note, where that may be, and gives its number.
fn take_up(cleaner: &mut Cleaner<u64>, by: u8, place: Slot, number: u32) -> Option<u64> {
    let action = ready(cleaner, by, place)?;
    let job = cleaner.take_up(by, place, action, Work::Note(number));
    Some(job.action.number())
}

// Registers an action at the first place, and takes it up as a note.
fn note(cleaner: &mut Cleaner<u64>, by: u8, number: u32) -> Option<u64> {
    let place = Slot::new(0);
    register(cleaner, place)?;
    take_up(cleaner, by, place, number)
}

// So many notes, each taken up by the cleaner and over before the next. Gives the number of the last.
fn many(cleaner: &mut Cleaner<u64>, count: u32, outcome: Outcome) -> Option<u64> {
    let mut last = 0;
    for number in 0..count {
        last = note(cleaner, ITSELF, number)?;
        if !cleaner.finish(ITSELF, ActionNo::new(last), outcome) {
            return None;
        }
    }
    Some(last)
}

// ---- Files and sockets

// A resource that is opened, called once and closed by the cleaner. It can be neither dropped nor copied.
fn open_call_close<R>(
    cleaner: &mut Cleaner<R>,
    place: Slot,
    action: ActionNo,
    rid: Rid,
    resource: R,
) -> Job<R>
    requires waits { at cleaner.old.waiting place ≡ Some action }
    requires opening { HasWork cleaner.old.table action state.Opening (Work.Resource rid) }
    requires not_running { is_running cleaner.old.jobs action ≡ false }
    requires free { runs_job cleaner.old.jobs 255 ≡ false }
    requires numbered { cleaner.old.taken + 1 < cleaner.old.next_action }
    ensures same { result.resource ≡ Some resource }
{
    cleaner.opened(rid, resource);
    let resource = cleaner.check_out(rid);
    cleaner.check_in(rid, resource);
    cleaner.take_up(ITSELF, place, action, Work::Resource(rid))
}

fn resource_at(resources: &[Resource], rid: Rid) -> Option<Resource>
    ensures { result ≡ resource_in resources.now rid }
{
    for resource in resources {
        if resource.rid.number() == rid.number() {
            return Some(*resource);
        }
    }
    None
}

// Whether there is this resource.
fn is_there(resources: &[Resource], wanted: Resource) -> bool
    ensures { result ≡ true → resource_in resources.now wanted.rid ≡ Some wanted }
{
    match resource_at(resources, wanted.rid) {
        Some(resource) => resource == wanted,
        None => false,
    }
}

// Gives what the job hands out.
fn life(
    cleaner: &mut Cleaner<u64>,
    alloc: Global,
    place: Slot,
    rid: Rid,
    resource: u64,
) -> Option<u64> {
    let action = ready(cleaner, ITSELF, place)?;
    let opening = Resource {
        rid,
        action,
        state: State::Opening,
    };
    let resources = cleaner.resources(alloc).ok()?;
    if is_there(resources.as_slice(), opening) {
        open_call_close(cleaner, place, action, rid, resource).resource
    } else {
        None
    }
}

// Asked again where there is no memory.
fn prepare(cleaner: &mut Cleaner<u64>, action: ActionNo) -> Result<Rid, Refusal> {
    match cleaner.prepare(action) {
        Err(Refusal::NoMemory) => cleaner.prepare(action),
        answer => answer,
    }
}

fn opened(cleaner: &mut Cleaner<u64>, rid: Rid, resource: u64) -> bool {
    let is_opening = matches!(cleaner.state(rid), Some(State::Opening));
    if is_opening {
        cleaner.opened(rid, resource);
    }
    is_opening
}

fn open_failed(cleaner: &mut Cleaner<u64>, rid: Rid, place: Slot) -> bool {
    let is_opening = matches!(cleaner.state(rid), Some(State::Opening));
    if !is_opening || place.number() as usize >= cleaner.places() {
        return false;
    }
    cleaner.open_failed(place, rid);
    true
}

fn check_out(cleaner: &mut Cleaner<u64>, rid: Rid) -> Option<u64> {
    match cleaner.state(rid) {
        Some(State::Idle) => Some(cleaner.check_out(rid)),
        _ => None,
    }
}

fn check_in(cleaner: &mut Cleaner<u64>, rid: Rid, resource: u64) -> bool {
    let is_out = matches!(cleaner.state(rid), Some(State::Out));
    if is_out {
        cleaner.check_in(rid, resource);
    }
    is_out
}

fn registered(cleaner: &mut Cleaner<u64>, place: u64) -> Option<u64> {
    Some(register(cleaner, Slot::new(small(place)))?.number())
}

fn waiting(cleaner: &Cleaner<u64>, place: u64) -> Option<u64> {
    Some(cleaner.waits(Slot::new(small(place)))?.number())
}

// ---- Rows

#[derive(Drop)]
struct Cleanings {
    alloc: Global,
    cleaner: Cleaner<u64>,
}

impl Stage for Cleanings {
    fn answered(&mut self, name: &str, words: &mut SplitWhitespace<'_>) -> Option<Got> {
        match name {
            "many" => many_notes(&mut self.cleaner, words),
            "finish" => finish(&mut self.cleaner, words),
            _ => match all_numbers(words)? {
                Numbers::None => looked(&mut self.cleaner, name),
                Numbers::One(number) => self.with_one(name, number),
                Numbers::Two(first, second) => with_two(&mut self.cleaner, name, first, second),
                Numbers::Three(first, second, third) => self.with_three(name, first, second, third),
            },
        }
    }

    fn listed(&self, alloc: Global, name: &str) -> Result<String, AllocError> {
        match name {
            "jobs" => list(alloc, self.cleaner.jobs(alloc)),
            "resources" => list(alloc, self.cleaner.resources(alloc)),
            "notes" => ends(alloc, self.cleaner.notes(alloc)),
            "faults" => ends(alloc, self.cleaner.faults(alloc)),
            _ => Ok(String::new(alloc)),
        }
    }
}

impl Cleanings {
    fn with_one(&mut self, name: &str, number: u64) -> Option<Got> {
        if name == "new" {
            return Some(Got::Truth(renewed(self, number)));
        }
        with_number(&mut self.cleaner, name, number)
    }

    fn with_three(&mut self, name: &str, first: u64, second: u64, third: u64) -> Option<Got> {
        match name {
            "take_up" => {
                let (by, place, number) = (tiny(first), Slot::new(small(second)), small(third));
                Some(Got::Given(take_up(&mut self.cleaner, by, place, number)))
            }
            "open_call_close" => {
                let (place, rid) = (Slot::new(small(first)), rid(second));
                Some(Got::Given(life(&mut self.cleaner, self.alloc, place, rid, third)))
            }
            _ => None,
        }
    }
}

// One resource at most.
fn limits() -> Option<Limits> {
    Limits::checked(16, 2, 1, 0, 64, 1).ok()
}

// With this as the first action number.
fn renewed(stage: &mut Cleanings, next: u64) -> bool {
    let Some(limits) = limits() else {
        return false;
    };
    if next == 0 {
        return false;
    }
    match Cleaner::starting_at(stage.alloc, limits, next) {
        Ok(cleaner) => {
            stage.cleaner = cleaner;
            true
        }
        Err(_) => false,
    }
}

fn list<T: Debug + Drop>(
    alloc: Global,
    items: Result<Items<T>, AllocError>,
) -> Result<String, AllocError> {
    let items = items?;
    format!(in alloc; "{:?}", items.as_slice())
}

// How many there are, and the first and the last.
fn ends<T: Debug + Drop>(
    alloc: Global,
    items: Result<Items<T>, AllocError>,
) -> Result<String, AllocError> {
    let items = items?;
    shown_ends(alloc, items.as_slice())
}

fn shown_ends<T: Debug>(alloc: Global, items: &[T]) -> Result<String, AllocError> {
    let (count, first, last) = (items.len(), items.first(), items.last());
    format!(in alloc; "{count} {first:?} {last:?}")
}

fn looked(cleaner: &mut Cleaner<u64>, name: &str) -> Option<Got> {
    match name {
        "next_action" => Some(Got::Number(cleaner.next_action())),
        "places" => Some(Got::Number(cleaner.places() as u64)),
        "is_exhausted" => Some(Got::Truth(cleaner.is_exhausted())),
        "totals" => {
            let totals = cleaner.totals();
            Some(Got::Totals(totals.taken, totals.ok, totals.failed))
        }
        "count" => Some(Got::Number(cleaner.count() as u64)),
        "limit" => Some(Got::Number(u64::from(cleaner.resource_limit()))),
        "is_full" => Some(Got::Truth(cleaner.is_full())),
        "reserve" => Some(Got::Room(cleaner.reserve())),
        _ => None,
    }
}

fn many_notes(cleaner: &mut Cleaner<u64>, words: &mut SplitWhitespace<'_>) -> Option<Got> {
    match (parsed(words), outcome(words)) {
        (Some(count), Some(outcome)) => Some(Got::Given(many(cleaner, count, outcome))),
        _ => None,
    }
}

fn finish(cleaner: &mut Cleaner<u64>, words: &mut SplitWhitespace<'_>) -> Option<Got> {
    match (parsed(words), parsed(words), outcome(words)) {
        (Some(by), Some(action), Some(outcome)) => {
            Some(Got::Truth(cleaner.finish(by, ActionNo::new(action), outcome)))
        }
        _ => None,
    }
}

fn with_number(cleaner: &mut Cleaner<u64>, name: &str, number: u64) -> Option<Got> {
    match name {
        "register" => Some(Got::Given(registered(cleaner, number))),
        "waits" => Some(Got::Given(waiting(cleaner, number))),
        "prepare" => Some(Got::Place(prepare(cleaner, ActionNo::new(number)))),
        "runs_job" => Some(Got::Truth(cleaner.runs_job(tiny(number)))),
        "is_running" => Some(Got::Truth(cleaner.is_running(ActionNo::new(number)))),
        "state" => Some(Got::State(cleaner.state(rid(number)))),
        "check_out" => Some(Got::Given(check_out(cleaner, rid(number)))),
        _ => None,
    }
}

fn with_two(cleaner: &mut Cleaner<u64>, name: &str, first: u64, second: u64) -> Option<Got> {
    match name {
        "note" => Some(Got::Given(note(cleaner, tiny(first), small(second)))),
        "open_failed" => {
            let place = Slot::new(small(second));
            Some(Got::Truth(open_failed(cleaner, rid(first), place)))
        }
        "opened" => Some(Got::Truth(opened(cleaner, rid(first), second))),
        "check_in" => Some(Got::Truth(check_in(cleaner, rid(first), second))),
        _ => None,
    }
}

// `new` makes a cleaner for one resource, with its first action number. Of notes and faults an answer is how many there
// are, the first and the last.
const LISTS: &str = "
    # the last 256 notes are kept
    new 1 -> true
    many 257 ok -> Some(257)
    notes -> 256 Some(1) Some(256)
    faults -> 0 None None

    # the last 256 faults are kept
    new 1 -> true
    many 258 Denied -> Some(258)
    faults -> 256 Some(Failure { action: ActionNo(3), fault: Denied }) Some(Failure { action: ActionNo(258), fault: Denied })
    notes -> 0 None None

    # only the taker ends its job
    new 1 -> true
    note 0 7 -> Some(1)
    note 1 8 -> Some(2)
    note 0 9 -> None
    finish 0 2 ok -> false
    finish 0 9 ok -> false
    finish 255 1 ok -> false
    jobs -> [Job { action: ActionNo(1), work: Note(7), by: 0 }, Job { action: ActionNo(2), work: Note(8), by: 1 }]

    # a job is over once
    new 1 -> true
    note 0 7 -> Some(1)
    note 1 8 -> Some(2)
    finish 0 1 ok -> true
    finish 0 1 ok -> false
    is_running 1 -> false
    is_running 2 -> true
    runs_job 0 -> false
    runs_job 1 -> true

    # an action waits at its place until it is taken up
    new 1 -> true
    places -> 16
    waits 3 -> None
    register 3 -> Some(1)
    register 15 -> Some(2)
    register 16 -> None
    waits 3 -> Some(1)
    take_up 0 3 9 -> Some(1)
    waits 3 -> None
    waits 15 -> Some(2)
    finish 0 1 ok -> true
    take_up 0 3 9 -> None
    take_up 0 15 9 -> Some(2)

    # outcomes are counted
    new 1 -> true
    many 1 Other -> Some(1)
    many 1 ok -> Some(2)
    note 255 9 -> Some(3)
    totals -> (3, 1, 1)

    # a job hands out what was put in last
    new 1 -> true
    register 4 -> Some(1)
    prepare 1 -> Ok(Rid(0))
    open_call_close 4 0 97 -> Some(97)
    waits 4 -> None
    state 0 -> Some(Closing)
    resources -> [Resource { rid: Rid(0), action: ActionNo(1), state: Closing }]
    finish 255 1 ok -> true
    state 0 -> None

    # a call gives what the call before gave back
    new 1 -> true
    prepare 1 -> Ok(Rid(0))
    opened 0 7 -> true
    check_out 0 -> Some(7)
    state 0 -> Some(Out)
    check_out 0 -> None
    check_in 0 8 -> true
    check_out 0 -> Some(8)

    # an open that failed leaves no resource
    new 1 -> true
    register 2 -> Some(1)
    prepare 1 -> Ok(Rid(0))
    is_full -> true
    state 0 -> Some(Opening)
    open_failed 0 2 -> true
    count -> 0
    waits 2 -> None

    # a full table refuses
    new 1 -> true
    limit -> 1
    prepare 1 -> Ok(Rid(0))
    prepare 2 -> Err(ResourcesFull)

    # room is made beforehand
    new 1 -> true
    reserve -> Ok(())
    count -> 0
    prepare 1 -> Ok(Rid(0))

    # action numbers end
    new 18446744073709551614 -> true
    register 0 -> Some(18446744073709551614)
    is_exhausted -> true
    register 1 -> None
    waits 1 -> None
    next_action -> 18446744073709551615
";

#[test]
fn the_cleaner_answers_as_the_rows_say(rt: HostRuntime) -> Result<(), Fail> {
    let limits = limits().ok_or("limits")?;
    let alloc = rt.alloc();
    match Cleaner::new(alloc, limits) {
        Ok(cleaner) => play(&mut Cleanings { alloc, cleaner }, alloc, LISTS),
        Err(error) => Err(Fail::from(error)),
    }
}
