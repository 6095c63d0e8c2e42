//! The image at the head of a trace file.
ghost use Rattle.std.specs.Prelude.{◌≡◌, ◌≤◌, ◌++◌, length, map, option_map, Some, IfOk};
ghost use Rattle.std.specs.Int.{w32};
ghost use Rattle.jlr_trace_fields.specs.Reading.{Reads, number_within_at, three_fields};
ghost use Rattle.jlr_trace_fields.specs.Items.{items_at, rising_at};
ghost use Rattle.jlr_trace_fields.specs.Records.{held_after};
ghost use Rattle.jlr_trace_entries.specs.Images.{listed_from, placed, handle_held, head_read, session_text};
ghost use Rattle.jlr_trace_entries.specs.Images.{joined_read};
ghost use Rattle.jlr_trace_entries.specs.Images.{session_read, waiting_read, records_read, counts_read, image_text};
ghost use Rattle.jlr_trace_entries.specs.Images.{made_image, image_behind, image_read, places_of, HasPlaces, HasShape};
ghost use Rattle.std.specs.List.{AllByRecursion};

use crate::places::{Objects, held_places, objects_at};
use jlr_machine::items::Items;
use jlr_machine::machine::{Binding, Failure, Job, Machine, Resource, Session};
use jlr_machine::table::Table;
use jlr_trace_fields::cursor::{
    take_flag, take_option, take_u16_within, take_u32, take_u64, take_within,
};
use jlr_trace_fields::fault::{Fault, ReadError};
use jlr_trace_fields::parts::items::take_list;
use jlr_trace_fields::parts::record::{Placed, take_call};
use jlr_trace_fields::parts::rising::take_rising;
use jlr_trace_fields::version::Version;
use jlr_types::Slot;
use std::alloc::Global;

/// The limits of an image, and how many entries there were before it.
#[derive(Clone, Copy)]
pub(crate) struct Head {
    pub(crate) cells: u32,
    pub(crate) sessions: u8,
    pub(crate) resources: u16,
    pub(crate) base: u64,
}

/// The names, and what waits for the handler and the cleaner.
#[derive(Drop)]
pub(crate) struct Waiting {
    pub(crate) names: Items<Binding>,
    pub(crate) pending: Items<Slot>,
    pub(crate) line: Items<Slot>,
}

/// Running jobs, resources, failures and notes.
#[derive(Drop)]
pub(crate) struct Records {
    pub(crate) jobs: Items<Job>,
    pub(crate) resources: Items<Resource>,
    pub(crate) faults: Items<Failure>,
    pub(crate) notes: Items<u32>,
}

/// The next action, and the counts of take-ups.
#[derive(Clone, Copy)]
pub(crate) struct Counts {
    pub(crate) next_action: u64,
    pub(crate) taken: u64,
    pub(crate) ok: u64,
    pub(crate) failed: u64,
}

/// What the head of a trace file says.
#[derive(Drop)]
pub struct Image {
    /// How many entries there were before.
    pub base: u64,
    /// The machine from which the entries go on, with its limits.
    pub machine: Machine,
    /// Objects in slots that are no cells of the machine, with rising slots.
    pub strays: Items<Placed>,
}

#[tactic(auto, unfolding(jlr_trace_fields::specs::Reading::number_within_at))]
fn cells_at(bytes: &mut &[u8]) -> Result<u32, ReadError>
    ensures { Reads (λ x. x) result bytes.new.now (number_within_at w32 16 65536 bytes.old.now) }
{
    let cells = take_u32(bytes)?;
    if cells < 16 || 65_536 < cells {
        return Err(ReadError::Fault(Fault::Range));
    }
    Ok(cells)
}

#[tactic(auto, unfolding(crate::specs::Images::head_read))]
fn head_at(bytes: &mut &[u8]) -> Result<Head, ReadError>
    ensures { Reads (λ x. x) result bytes.new.now (head_read bytes.old.now) }
{
    let cells = cells_at(bytes)?;
    let sessions = take_within(1, 64, bytes)?;
    let resources = take_u16_within(1, 256, bytes)?;
    let base = take_u64(bytes)?;
    Ok(Head {
        cells,
        sessions,
        resources,
        base,
    })
}

fn handles_at(alloc: Global, bytes: &mut &[u8]) -> Result<Table<Slot>, ReadError>
    ensures reads { Reads (λ x. listed_from handle_held 0 x) result bytes.new.now
        (rising_at 5 held_after (λ h. h.handle) bytes.old.now) }
    ensures places { IfOk result (λ x. length x ≡ places_of (listed_from handle_held 0 x)) }
{
    let held = take_rising(alloc, bytes)?;
    let places = held_places(alloc, held.as_slice())?;
    Ok(Table::from_vec(places))
}

#[tactic(auto, unfolding(crate::specs::Images::joined_read))]
fn joined_at(alloc: Global, bytes: &mut &[u8]) -> Result<Session, ReadError>
    ensures reads { Reads (λ x. Some (session_text x)) result bytes.new.now (joined_read bytes.old.now) }
    ensures places { IfOk result (λ x. HasPlaces (Some x)) }
{
    let handles = handles_at(alloc, bytes)?;
    let fence = take_option(bytes)?;
    let call = take_call(bytes)?;
    Ok(Session {
        handles,
        fence,
        call,
    })
}

#[tactic(auto, unfolding(crate::specs::Images::session_read))]
fn session_at(alloc: Global, bytes: &mut &[u8]) -> Result<Option<Session>, ReadError>
    ensures reads { Reads (λ x. option_map session_text x) result bytes.new.now (session_read bytes.old.now) }
    ensures places { IfOk result HasPlaces }
{
    let is_joined = take_flag(bytes)?;
    if !is_joined {
        return Ok(None);
    }
    let session = joined_at(alloc, bytes)?;
    Ok(Some(session))
}

fn sessions_at(
    alloc: Global,
    count: u8,
    bytes: &mut &[u8],
) -> Result<Vec<Option<Session>>, ReadError>
    ensures reads { Reads (λ x. map (option_map session_text) x.items) result bytes.new.now
        (items_at session_read count bytes.old.now) }
    ensures sized { IfOk result (λ x. length x.items ≡ count) }
    ensures places { IfOk result (λ x. AllByRecursion HasPlaces x.items) }
{
    let mut sessions: Vec<Option<Session>> = Vec::new(alloc);
    for _ in 0..count {
        let session = session_at(alloc, bytes)?;
        sessions.push(session)?;
    }
    Ok(sessions)
}

#[tactic(auto, unfolding(crate::specs::Images::waiting_read))]
fn waiting_at(alloc: Global, bytes: &mut &[u8]) -> Result<Waiting, ReadError>
    ensures { Reads (λ x. x) result bytes.new.now (waiting_read bytes.old.now) }
{
    let names = take_list(alloc, bytes)?;
    let pending = take_list(alloc, bytes)?;
    let line = take_list(alloc, bytes)?;
    Ok(Waiting {
        names,
        pending,
        line,
    })
}

#[tactic(auto, unfolding(crate::specs::Images::records_read))]
fn records_at(alloc: Global, bytes: &mut &[u8]) -> Result<Records, ReadError>
    ensures { Reads (λ x. x) result bytes.new.now (records_read bytes.old.now) }
{
    let jobs = take_rising(alloc, bytes)?;
    let resources = take_rising(alloc, bytes)?;
    let faults = take_list(alloc, bytes)?;
    let notes = take_list(alloc, bytes)?;
    Ok(Records {
        jobs,
        resources,
        faults,
        notes,
    })
}

#[tactic(auto, unfolding(crate::specs::Images::counts_read))]
fn counts_at(bytes: &mut &[u8]) -> Result<Counts, ReadError>
    ensures { Reads (λ x. x) result bytes.new.now (counts_read bytes.old.now) }
{
    let next_action = take_u64(bytes)?;
    let taken = take_u64(bytes)?;
    let ok = take_u64(bytes)?;
    let failed = take_u64(bytes)?;
    Ok(Counts {
        next_action,
        taken,
        ok,
        failed,
    })
}

/// The image that these parts make.
fn image_of(
    alloc: Global,
    head: Head,
    objects: Objects,
    mutators: Vec<Option<Session>>,
    waiting: Waiting,
    records: Records,
    counts: Counts,
) -> Image
    requires cells { length objects.table ≡ head.cells }
    requires sessions { length mutators.items ≡ head.sessions }
    requires apart { AllByRecursion (λ p. length objects.table ≤ p.slot) objects.strays }
    requires places { AllByRecursion HasPlaces mutators.items }
    ensures text { image_text result ≡ made_image head (listed_from placed 0 objects.table ++ objects.strays)
        (map (option_map session_text) mutators.items) waiting records counts }
    ensures shape { HasShape result }
{
    let Objects { table, strays } = objects;
    let Waiting {
        names,
        pending,
        line,
    } = waiting;
    let Records {
        jobs,
        resources,
        faults,
        notes,
    } = records;
    let machine = Machine {
        objects: table,
        mutators: Table::from_vec(mutators),
        names,
        pending,
        line,
        jobs,
        resources,
        resource_limit: u32::from(head.resources),
        faults,
        notes,
        next_action: counts.next_action,
        taken: counts.taken,
        ok: counts.ok,
        failed: counts.failed,
        cycle_open: false,
        seen: Items::new(alloc),
    };
    Image {
        base: head.base,
        machine,
        strays,
    }
}

/// The image of this head and these tables. Where what follows has a fault, what was read before is let go by calls: an
/// exit that held it would go through each of its parts.
fn with_tables(
    alloc: Global,
    head: Head,
    objects: Objects,
    mutators: Vec<Option<Session>>,
    bytes: &mut &[u8],
) -> Result<Image, ReadError>
    requires cells { length objects.table ≡ head.cells }
    requires sessions { length mutators.items ≡ head.sessions }
    requires apart { AllByRecursion (λ p. length objects.table ≤ p.slot) objects.strays }
    requires places { AllByRecursion HasPlaces mutators.items }
    ensures reads { Reads image_text result bytes.new.now (
        three_fields waiting_read records_read counts_read
        (made_image head (listed_from placed 0 objects.table ++ objects.strays)
        (map (option_map session_text) mutators.items))
        bytes.old.now) }
    ensures shape { IfOk result HasShape }
{
    let waiting = match waiting_at(alloc, bytes) {
        Ok(waiting) => waiting,
        Err(error) => {
            drop(objects);
            drop(mutators);
            return Err(error);
        }
    };
    let records = match records_at(alloc, bytes) {
        Ok(records) => records,
        Err(error) => {
            drop(objects);
            drop(mutators);
            drop(waiting);
            return Err(error);
        }
    };
    match counts_at(bytes) {
        Ok(counts) => Ok(image_of(alloc, head, objects, mutators, waiting, records, counts)),
        Err(error) => {
            drop(objects);
            drop(mutators);
            drop(waiting);
            drop(records);
            Err(error)
        }
    }
}

/// The image of this head.
fn body_at(
    alloc: Global,
    version: Version,
    head: Head,
    bytes: &mut &[u8],
) -> Result<Image, ReadError>
    ensures reads { Reads image_text result bytes.new.now (image_behind version head bytes.old.now) }
    ensures shape { IfOk result HasShape }
{
    let objects = objects_at(alloc, version, head.cells, bytes)?;
    match sessions_at(alloc, head.sessions, bytes) {
        Ok(mutators) => with_tables(alloc, head, objects, mutators, bytes),
        Err(error) => {
            drop(objects);
            Err(error)
        }
    }
}

/// The image at the front of the bytes, which are then those behind it. No cycle is open in its machine, and nothing
/// was seen; a session's handles have 251 places, and 256 where one is above 250.
///
/// # Errors
/// The first fault of its fields from the front, or `Memory`. A count takes no memory beforehand: memory is taken as
/// the items come.
#[tactic(auto, unfolding(crate::specs::Images::image_read))]
pub fn take_image(alloc: Global, version: Version, bytes: &mut &[u8]) -> Result<Image, ReadError>
    ensures reads { Reads image_text result bytes.new.now (image_read version bytes.old.now) }
    ensures shape { IfOk result HasShape }
{
    let head = head_at(bytes)?;
    body_at(alloc, version, head, bytes)
}
