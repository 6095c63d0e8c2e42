//! Playing lists of rows on a core.
ghost use Rattle.std.specs.Prelude.{IfOk, length, ◌≤◌};

use super::{let_go, objects_in};
use jlr_event::event::{Event, Reply};
use jlr_machine::choice::Choice;
use jlr_steps::engine::Core;
use jlr_types::Limits;
use jlr_words::{event_of, handle_in, is_reply};
use std::alloc::{AllocError, Global};
use std::test::Fail;

const ARROW: &str = " -> ";

const TITLE: &str = "== ";

const UNCOLLECTED: &str = "uncollected ";

// ---- Lists

/// The heap of a list.
#[derive(Clone, Copy)]
pub(super) struct Shape {
    pub(super) limits: Limits,
    first_action: u64,
}

// The options of a list: cells, sessions, resources, soft age and first action.
#[derive(Clone, Copy)]
struct Options {
    cells: u32,
    sessions: u32,
    resources: u32,
    soft_age: u32,
    first_action: u64,
}

fn with_option(options: Options, name: &str, number: u32) -> Option<Options> {
    match name {
        "cells" => Some(Options {
            cells: number,
            ..options
        }),
        "sessions" => Some(Options {
            sessions: number,
            ..options
        }),
        "resources" => Some(Options {
            resources: number,
            ..options
        }),
        "soft_age" => Some(Options {
            soft_age: number,
            ..options
        }),
        _ => None,
    }
}

fn added(options: Options, option: &str) -> Option<Options> {
    let (name, number) = option.split_once(' ')?;
    if name == "first_action" {
        let first_action = number.parse().ok()?;
        return Some(Options {
            first_action,
            ..options
        });
    }
    with_option(options, name, number.parse().ok()?)
}

fn read_shape(text: &str) -> Option<Shape> {
    let mut options = Options {
        cells: 16,
        sessions: 1,
        resources: 1,
        soft_age: 0,
        first_action: 1,
    };
    for option in text.split_terminator(", ") {
        options = added(options, option)?;
    }
    let Options {
        cells,
        sessions,
        resources,
        soft_age,
        first_action,
    } = options;
    let limits = Limits::checked(cells, sessions, resources, soft_age, 64, 1).ok()?;
    Some(Shape {
        limits,
        first_action,
    })
}

/// The heap that these options tell of.
pub(super) fn shape_of(options: &str) -> Result<Shape, Fail> {
    Ok(read_shape(options).ok_or("no option")?)
}

// The heap of a list with this title.
fn titled(title: &str) -> Option<Shape> {
    match title.split_once(": ") {
        Some((_, options)) => read_shape(options),
        None => read_shape(""),
    }
}

fn core_of(alloc: Global, shape: Shape) -> Result<Core<u32>, AllocError>
    ensures { IfOk result (λ core. length core.machine.objects ≤ shape.limits.cells) }
{
    if shape.first_action > 1 {
        return Core::new_from(alloc, shape.limits, shape.first_action);
    }
    Core::new(alloc, shape.limits)
}

/// A core, and a choice that has room for all its cells.
pub(super) fn ready(alloc: Global, shape: Shape) -> Result<(Core<u32>, Choice), AllocError>
    ensures { IfOk result (λ made. length made.0.machine.objects ≤ made.1.cells) }
{
    let choice = Choice::new(alloc, shape.limits.cells)?;
    let core = core_of(alloc, shape)?;
    Ok((core, choice))
}

// The same, made again where memory was refused once.
fn ready_again(alloc: Global, shape: Shape) -> Result<(Core<u32>, Choice), AllocError>
    ensures { IfOk result (λ made. length made.0.machine.objects ≤ made.1.cells) }
{
    match ready(alloc, shape) {
        Ok(made) => Ok(made),
        Err(_) => ready(alloc, shape),
    }
}

// The first row that is not as it says, on this heap.
fn first_wrong_on<'a>(
    alloc: Global,
    made: (Core<u32>, Choice),
    rows: &'a str,
) -> Result<Option<&'a str>, AllocError>
    requires { length made.0.machine.objects ≤ made.1.cells }
{
    let (mut core, mut choice) = made;
    let wrong = first_wrong(alloc, &mut core, &mut choice, rows);
    let_go(core);
    wrong
}

/// The first row that is not as it says, on a heap of its own.
pub(super) fn first_wrong_of<'a>(
    alloc: Global,
    shape: Shape,
    rows: &'a str,
) -> Result<Option<&'a str>, AllocError> {
    match ready_again(alloc, shape) {
        Ok(made) => first_wrong_on(alloc, made, rows),
        Err(memory_refusal) => Err(memory_refusal),
    }
}

/// The rows of all lists are as they say.
pub(super) fn play_all(alloc: Global, lists: &str) -> Result<(), Fail> {
    for list in lists.split(TITLE).skip(1) {
        let (title, rows) = list.split_once('\n').ok_or("a list without rows")?;
        let shape = titled(title).ok_or("no heap")?;
        if let Some(row) = first_wrong_of(alloc, shape, rows)? {
            return Err(Fail::new(format_args!("{title}: {row}")));
        }
    }
    Ok(())
}

// ---- Rows

// Whether a line is a row, and no comment and not empty.
fn is_row(line: &str) -> bool {
    !line.is_empty() && !line.starts_with("-- ")
}

fn first_wrong<'a>(
    alloc: Global,
    core: &mut Core<u32>,
    choice: &mut Choice,
    rows: &'a str,
) -> Result<Option<&'a str>, AllocError>
    requires { length core.old.machine.objects ≤ choice.old.cells }
{
    for row in rows.lines() {
        let row = row.trim();
        if is_row(row) && !holds(alloc, core, choice, row)? {
            return Ok(Some(row));
        }
    }
    Ok(None)
}

// Whether a row is as it says.
fn holds(
    alloc: Global,
    core: &mut Core<u32>,
    choice: &mut Choice,
    row: &str,
) -> Result<bool, AllocError>
    requires { length core.old.machine.objects ≤ choice.old.cells }
    ensures { length core.new.machine.objects ≤ choice.new.cells }
{
    if let Some(count) = row.strip_prefix("objects ") {
        return Ok(count.parse() == Ok(objects_in(alloc, core)?));
    }
    Ok(match row.split_once(ARROW) {
        Some((ask, wanted)) => is_answered(alloc, core, choice, ask, wanted),
        None => is_seen(alloc, core, choice, row),
    })
}

// An ask whose answer is not looked at, or whether the core rests: nothing is pending then, and nothing stands in the
// cleaner's line.
fn is_seen(alloc: Global, core: &mut Core<u32>, choice: &mut Choice, row: &str) -> bool
    requires { length core.old.machine.objects ≤ choice.old.cells }
    ensures { length core.new.machine.objects ≤ choice.new.cells }
{
    match row.strip_prefix("rests ") {
        Some(wanted) => rests(core) == (wanted == "yes"),
        None => is_asked(alloc, core, choice, row),
    }
}

fn rests(core: &Core<u32>) -> bool {
    core.pending_empty() && core.line_empty()
}

/// Whether an ask is answered so.
pub(super) fn is_answered(
    alloc: Global,
    core: &mut Core<u32>,
    choice: &mut Choice,
    ask: &str,
    wanted: &str,
) -> bool
    requires { length core.old.machine.objects ≤ choice.old.cells }
    ensures { length core.new.machine.objects ≤ choice.new.cells }
{
    if let Some((first, last)) = wanted.split_once(" up to ") {
        return gives_handles(alloc, core, choice, ask, range(first, last));
    }
    match ask.strip_prefix("again ") {
        Some(ask) => is_told_again(alloc, core, choice, ask, wanted),
        None => matches!(told(alloc, core, choice, ask, wanted), Outcome::AsWanted),
    }
}

// An ask behind `uncollected` is to be answered without a collection in its choice.
fn is_uncollected(choice: &Choice, ask: &str) -> bool {
    !ask.starts_with(UNCOLLECTED) || !choice.collects()
}

// How an ask was answered.
#[derive(Clone, Copy)]
enum Outcome {
    AsWanted,
    NoMemory,
    Otherwise,
}

fn sort(reply: &Reply<u32>, wanted: &str) -> Outcome {
    if is_reply(reply, wanted) {
        return Outcome::AsWanted;
    }
    if is_reply(reply, "refused NoMemory") {
        return Outcome::NoMemory;
    }
    Outcome::Otherwise
}

fn answer(core: &mut Core<u32>, choice: &mut Choice, event: Event<u32>, wanted: &str) -> Outcome
    requires { length core.old.machine.objects ≤ choice.old.cells }
    ensures { length core.new.machine.objects ≤ choice.new.cells }
{
    sort(&core.step(event, choice), wanted)
}

fn told(
    alloc: Global,
    core: &mut Core<u32>,
    choice: &mut Choice,
    ask: &str,
    wanted: &str,
) -> Outcome
    requires { length core.old.machine.objects ≤ choice.old.cells }
    ensures { length core.new.machine.objects ≤ choice.new.cells }
{
    match event_of(alloc, ask) {
        Some(event) => answer(core, choice, event, wanted),
        None => Outcome::Otherwise,
    }
}

// Whether an ask is answered so, at once or after it was refused for lack of memory.
fn is_told_again(
    alloc: Global,
    core: &mut Core<u32>,
    choice: &mut Choice,
    ask: &str,
    wanted: &str,
) -> bool
    requires { length core.old.machine.objects ≤ choice.old.cells }
    ensures { length core.new.machine.objects ≤ choice.new.cells }
{
    match told(alloc, core, choice, ask, wanted) {
        Outcome::AsWanted => true,
        Outcome::NoMemory => matches!(told(alloc, core, choice, ask, wanted), Outcome::AsWanted),
        Outcome::Otherwise => false,
    }
}

fn is_asked(alloc: Global, core: &mut Core<u32>, choice: &mut Choice, ask: &str) -> bool
    requires { length core.old.machine.objects ≤ choice.old.cells }
    ensures { length core.new.machine.objects ≤ choice.new.cells }
{
    match event_of(alloc, ask) {
        Some(event) => {
            drop(core.step(event, choice));
            true
        }
        None => false,
    }
}

// From the first handle to the last; none where they are none.
fn range(first: &str, last: &str) -> Option<(u8, u8)> {
    Some((
        first.strip_prefix("handle ")?.parse().ok()?,
        last.parse().ok()?,
    ))
}

fn gives_handle(
    alloc: Global,
    core: &mut Core<u32>,
    choice: &mut Choice,
    ask: &str,
    number: u8,
) -> bool
    requires { length core.old.machine.objects ≤ choice.old.cells }
    ensures { length core.new.machine.objects ≤ choice.new.cells }
{
    match event_of(alloc, ask.strip_prefix(UNCOLLECTED).unwrap_or(ask)) {
        Some(event) => {
            let handle = handle_in(&core.step(event, choice));
            handle == Some(number) && is_uncollected(choice, ask)
        }
        None => false,
    }
}

// Whether an ask is answered by each of these handles, time after time.
fn gives_handles(
    alloc: Global,
    core: &mut Core<u32>,
    choice: &mut Choice,
    ask: &str,
    range: Option<(u8, u8)>,
) -> bool
    requires { length core.old.machine.objects ≤ choice.old.cells }
    ensures { length core.new.machine.objects ≤ choice.new.cells }
{
    let Some((first, last)) = range else {
        return false;
    };
    for number in first..=last {
        if !gives_handle(alloc, core, choice, ask, number) {
            return false;
        }
    }
    true
}

/// The events of rows that are asks alone.
pub(super) fn events_of(alloc: Global, asks: &str) -> Result<Vec<Event<u32>>, AllocError> {
    let mut events = Vec::new(alloc);
    for ask in asks.lines() {
        if let Some(event) = event_of(alloc, ask) {
            events.push(event)?;
        }
    }
    Ok(events)
}
