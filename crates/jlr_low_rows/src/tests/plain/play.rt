//! Playing rows on the plain program.
ghost use Rattle.std.specs.Prelude.{◌≤◌, IfOk};
ghost use Rattle.jlr_machine.specs.WellFormed.{IsWellFormed};

use super::entries::entry_of;
use super::same::same_machine;
use jlr_machine::ask::{Answer, Ask};
use jlr_machine::copies::copy_machine;
use jlr_machine::entry::{Chosen, Entry};
use jlr_machine::machine::Machine;
use jlr_machine::text::Name;
use jlr_plain::empty::{empty_plain, empty_plain_from};
use jlr_plain::run::step_plain;
use jlr_types::{Handle, Mutator};
use std::alloc::{AllocError, Global};
use std::test::Fail;

const TITLE: &str = "== ";

// The empty machine of these limits.
fn start(
    alloc: Global,
    cells: usize,
    sessions: usize,
    resources: u32,
) -> Result<Machine, AllocError>
    requires cells { cells ≤ 65536 }
    requires sessions { sessions ≤ 64 }
    ensures { IfOk result (λ m. IsWellFormed m) }
{
    empty_plain(alloc, cells, sessions, resources)
}

// The empty machine of sixteen cells, whose last action number is used up.
fn late_start(alloc: Global) -> Result<Machine, AllocError>
    ensures { IfOk result (λ m. IsWellFormed m) }
{
    empty_plain_from(alloc, 16, 1, 16, u64::MAX)
}

/// The empty machine that a list begins with.
pub(super) fn start_of(alloc: Global, title: &str) -> Result<Machine, AllocError>
    ensures { IfOk result (λ m. IsWellFormed m) }
{
    if title.ends_with(": no action left") {
        return late_start(alloc);
    }
    if title.ends_with(": two cells") {
        return start(alloc, 2, 1, 16);
    }
    if title.ends_with(": two sessions") {
        return start(alloc, 16, 2, 16);
    }
    if title.ends_with(": one resource") {
        return start(alloc, 16, 1, 1);
    }
    start(alloc, 16, 1, 16)
}

// The entry, made again where memory was refused once.
fn entry_again(alloc: Global, row: &str) -> Result<Option<Entry>, AllocError> {
    match entry_of(alloc, row) {
        Ok(entry) => Ok(entry),
        Err(_) => entry_of(alloc, row),
    }
}

// A copy of the machine, made again where memory was refused once.
fn copy_again(alloc: Global, machine: &Machine) -> Result<Machine, AllocError> {
    match copy_machine(alloc, machine) {
        Ok(copy) => Ok(copy),
        Err(_) => copy_machine(alloc, machine),
    }
}

// Applies the entry if it is legal, and says whether it is. Where memory was refused once, the machine is compared with
// what it was, and the entry is tried again; a machine that has changed counts as an entry that is not legal.
fn take(alloc: Global, machine: &mut Machine, entry: &Entry) -> Result<bool, AllocError>
    requires { IsWellFormed machine.old }
    ensures { IsWellFormed machine.new }
{
    let before = copy_again(alloc, machine)?;
    let taken = take_or_stay(alloc, machine, entry, &before);
    drop(before);
    taken
}

fn take_or_stay(
    alloc: Global,
    machine: &mut Machine,
    entry: &Entry,
    before: &Machine,
) -> Result<bool, AllocError>
    requires { IsWellFormed machine.old }
    ensures { IsWellFormed machine.new }
{
    match step_plain(alloc, machine, entry) {
        Ok(legal) => Ok(legal),
        Err(_) => {
            if !same_machine(machine, before) {
                return Ok(false);
            }
            step_plain(alloc, machine, entry)
        }
    }
}

// The same with an entry that is let go.
fn take_owned(alloc: Global, machine: &mut Machine, entry: Entry) -> Result<bool, AllocError>
    requires { IsWellFormed machine.old }
    ensures { IsWellFormed machine.new }
{
    take(alloc, machine, &entry)
}

// A name of two letters for each number.
fn numbered(number: u8) -> Option<Name> {
    Name::from_slice(&[b'a' + number / 16, b'a' + number % 16])
}

// Binds a name to what handle 1 holds.
fn binding(name: Name) -> Entry {
    Entry {
        seat: 0,
        ask: Ask::Bind {
            mutator: Mutator::new(0),
            name,
            object: Handle::new(1),
        },
        answer: Answer::Done,
        choice: Chosen::nothing(),
    }
}

fn bind(alloc: Global, machine: &mut Machine, number: u8) -> Result<bool, AllocError>
    requires { IsWellFormed machine.old }
    ensures { IsWellFormed machine.new }
{
    match numbered(number) {
        Some(name) => take_owned(alloc, machine, binding(name)),
        None => Ok(false),
    }
}

fn bind_every_name(alloc: Global, machine: &mut Machine) -> Result<bool, AllocError>
    requires { IsWellFormed machine.old }
    ensures { IsWellFormed machine.new }
{
    for number in 0u8..=255 {
        if !bind(alloc, machine, number)? {
            return Ok(false);
        }
    }
    Ok(true)
}

// Whether a row is an entry that is legal, and applied, or one that is not, as wanted.
fn is_entry(
    alloc: Global,
    machine: &mut Machine,
    row: &str,
    legal: bool,
) -> Result<bool, AllocError>
    requires { IsWellFormed machine.old }
    ensures { IsWellFormed machine.new }
{
    match entry_again(alloc, row)? {
        Some(entry) => Ok(take_owned(alloc, machine, entry)? == legal),
        None => Ok(false),
    }
}

// Whether a row is as it says.
fn holds(alloc: Global, machine: &mut Machine, row: &str) -> Result<bool, AllocError>
    requires { IsWellFormed machine.old }
    ensures { IsWellFormed machine.new }
{
    if row == "bind every name 1" {
        return bind_every_name(alloc, machine);
    }
    match row.strip_prefix("wrong ") {
        Some(row) => is_entry(alloc, machine, row, false),
        None => is_entry(alloc, machine, row, true),
    }
}

// Whether a line is a row, and no comment and not empty.
fn is_row(line: &str) -> bool {
    !line.is_empty() && !line.starts_with("-- ")
}

/// The first row that is not as it says.
pub(super) fn first_wrong<'a>(
    alloc: Global,
    machine: &mut Machine,
    rows: &'a str,
) -> Result<Option<&'a str>, AllocError>
    requires { IsWellFormed machine.old }
    ensures { IsWellFormed machine.new }
{
    for row in rows.lines() {
        let row = row.trim();
        if is_row(row) && !holds(alloc, machine, row)? {
            return Ok(Some(row));
        }
    }
    Ok(None)
}

fn first_wrong_of<'a>(
    alloc: Global,
    title: &str,
    rows: &'a str,
) -> Result<Option<&'a str>, AllocError> {
    let mut machine = start_of(alloc, title)?;
    let wrong = first_wrong(alloc, &mut machine, rows);
    drop(machine);
    wrong
}

/// Every row of all lists is as it says.
pub(super) fn play_all(alloc: Global, lists: &str) -> Result<(), Fail> {
    for list in lists.split(TITLE).skip(1) {
        let (title, rows) = list.split_once('\n').ok_or("a list without rows")?;
        if let Some(row) = first_wrong_of(alloc, title, rows)? {
            return Err(Fail::new(format_args!("{title}: {row}")));
        }
    }
    Ok(())
}
