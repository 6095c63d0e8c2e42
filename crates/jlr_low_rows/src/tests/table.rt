//! The table of files and sockets, which holds numbers here.
ghost use Rattle.std.specs.Prelude.{◌≡◌, Some};
ghost use Rattle.jlr_machine.specs.declared.machine.ResourceState.TheVariants as state;
ghost use Rattle.jlr_resource.specs.Resources.{resource_state_at};

use super::calls::{Got, Stage, play};
use super::words::{Numbers, all_numbers, rid, small};
use jlr_resource::{State, Table};
use jlr_types::{ActionNo, Refusal, Rid};
use std::alloc::{AllocError, Global};
use std::str::SplitWhitespace;
use std::test::Fail;

// A whole life of a resource that can be neither dropped nor copied: it comes out as it was put in.
fn whole_life<R>(table: &mut Table<R>, rid: Rid, resource: R) -> R
    requires { resource_state_at table.old rid ≡ Some state.Opening }
    ensures same { result ≡ resource }
{
    table.opened(rid, resource);
    let resource = table.check_out(rid);
    table.check_in(rid, resource);
    let resource = table.take_for_close(rid);
    table.closed(rid);
    resource
}

fn life(table: &mut Table<u64>, rid: Rid, resource: u64) -> Option<u64> {
    match table.state(rid) {
        Some(State::Opening) => Some(whole_life(table, rid, resource)),
        _ => None,
    }
}

// Asked again where there is no memory, after which the table has to hold as many as before.
fn prepare(table: &mut Table<u64>, action: ActionNo) -> Result<Rid, Refusal> {
    let before = table.count();
    match table.prepare(action) {
        Err(Refusal::NoMemory) if table.count() == before => table.prepare(action),
        answer => answer,
    }
}

fn opened(table: &mut Table<u64>, rid: Rid, resource: u64) -> bool {
    let is_opening = matches!(table.state(rid), Some(State::Opening));
    if is_opening {
        table.opened(rid, resource);
    }
    is_opening
}

fn check_out(table: &mut Table<u64>, rid: Rid) -> Option<u64> {
    match table.state(rid) {
        Some(State::Idle) => Some(table.check_out(rid)),
        _ => None,
    }
}

fn check_in(table: &mut Table<u64>, rid: Rid, resource: u64) -> bool {
    let is_out = matches!(table.state(rid), Some(State::Out));
    if is_out {
        table.check_in(rid, resource);
    }
    is_out
}

fn take_for_close(table: &mut Table<u64>, rid: Rid) -> Option<u64> {
    match table.state(rid) {
        Some(State::Idle) => Some(table.take_for_close(rid)),
        _ => None,
    }
}

fn closed(table: &mut Table<u64>, rid: Rid) -> bool {
    match table.state(rid) {
        Some(State::Closing) => table.closed(rid),
        Some(State::Opening) => table.closed(rid),
        _ => return false,
    }
    true
}

#[derive(Drop)]
struct Resources {
    alloc: Global,
    table: Table<u64>,
}

impl Stage for Resources {
    fn answered(&mut self, name: &str, words: &mut SplitWhitespace<'_>) -> Option<Got> {
        match all_numbers(words)? {
            Numbers::None => looked(&mut self.table, name),
            Numbers::One(number) => self.told(name, number),
            Numbers::Two(place, resource) => {
                with_resource(&mut self.table, name, rid(place), resource)
            }
            Numbers::Three(_, _, _) => None,
        }
    }

    fn listed(&self, alloc: Global, name: &str) -> Result<String, AllocError> {
        if name == "image" {
            image(alloc, &self.table)
        } else {
            Ok(String::new(alloc))
        }
    }
}

impl Resources {
    fn told(&mut self, name: &str, number: u64) -> Option<Got> {
        match name {
            "new" => {
                self.table = Table::new(self.alloc, small(number));
                Some(Got::Truth(true))
            }
            "prepare" => Some(Got::Place(prepare(&mut self.table, ActionNo::new(number)))),
            _ => at_place(&mut self.table, name, rid(number)),
        }
    }
}

fn image(alloc: Global, table: &Table<u64>) -> Result<String, AllocError> {
    let image = table.image(alloc)?;
    format!(in alloc; "{:?}", image.as_slice())
}

fn looked(table: &mut Table<u64>, name: &str) -> Option<Got> {
    match name {
        "count" => Some(Got::Number(table.count() as u64)),
        "limit" => Some(Got::Number(u64::from(table.limit()))),
        "is_full" => Some(Got::Truth(table.is_full())),
        "reserve" => Some(Got::Room(table.reserve())),
        _ => None,
    }
}

fn at_place(table: &mut Table<u64>, name: &str, rid: Rid) -> Option<Got> {
    match name {
        "state" => Some(Got::State(table.state(rid))),
        "check_out" => Some(Got::Given(check_out(table, rid))),
        "take_for_close" => Some(Got::Given(take_for_close(table, rid))),
        "closed" => Some(Got::Truth(closed(table, rid))),
        _ => None,
    }
}

fn with_resource(table: &mut Table<u64>, name: &str, rid: Rid, resource: u64) -> Option<Got> {
    match name {
        "opened" => Some(Got::Truth(opened(table, rid, resource))),
        "check_in" => Some(Got::Truth(check_in(table, rid, resource))),
        "whole_life" => Some(Got::Given(life(table, rid, resource))),
        _ => None,
    }
}

// `new` makes a table for so many resources.
const LISTS: &str = "
    # a resource comes out as it was put in
    new 1 -> true
    limit -> 1
    prepare 1 -> Ok(Rid(0))
    state 0 -> Some(Opening)
    whole_life 0 7 -> Some(7)
    state 0 -> None
    count -> 0

    # a resource has the state of its last call
    new 4 -> true
    prepare 1 -> Ok(Rid(0))
    state 0 -> Some(Opening)
    opened 0 97 -> true
    state 0 -> Some(Idle)
    check_out 0 -> Some(97)
    state 0 -> Some(Out)
    check_in 0 98 -> true
    state 0 -> Some(Idle)
    take_for_close 0 -> Some(98)
    state 0 -> Some(Closing)
    count -> 1
    closed 0 -> true
    state 0 -> None

    # a full table refuses until one has ended
    new 2 -> true
    is_full -> false
    prepare 1 -> Ok(Rid(0))
    prepare 2 -> Ok(Rid(1))
    is_full -> true
    prepare 3 -> Err(ResourcesFull)
    count -> 2
    state 0 -> Some(Opening)
    closed 0 -> true
    is_full -> false
    prepare 3 -> Ok(Rid(0))
    state 0 -> Some(Opening)
    state 1 -> Some(Opening)

    # an image lists what has not ended
    new 3 -> true
    prepare 5 -> Ok(Rid(0))
    prepare 6 -> Ok(Rid(1))
    prepare 9 -> Ok(Rid(2))
    state 1 -> Some(Opening)
    closed 1 -> true
    state 2 -> Some(Opening)
    opened 2 1 -> true
    image -> [Resource { rid: Rid(0), action: ActionNo(5), state: Opening }, Resource { rid: Rid(2), action: ActionNo(9), state: Idle }]

    # a refused growth changes nothing
    new 1 -> true
    prepare 1 -> Ok(Rid(0))
    state 0 -> Some(Opening)

    # room is made beforehand
    new 1 -> true
    reserve -> Ok(())
    count -> 0
    prepare 1 -> Ok(Rid(0))
";

#[test]
fn the_table_answers_as_the_rows_say(rt: HostRuntime) -> Result<(), Fail> {
    let alloc = rt.alloc();
    let table = Table::new(alloc, 0);
    play(&mut Resources { alloc, table }, alloc, LISTS)
}
