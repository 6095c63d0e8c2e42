//! Small values, limits and the soft policy: rows of words, each true.
//!
//! `slot 65535` says that the slot of this number has it; `layout ri` that a layout takes these fields, and has them
//! and no more; `ticks 2` that so many are counted; `NoMemory 1` that this refusal has this number. `limits 16 65 257 0
//! 64 1 Sessions` says which limit is named as out of its range, or `good`, in the order cells, sessions, resources,
//! soft age, trace, budget. `kept 5 7 of 3` says that a soft reference that gave its referent last in collection 5 is
//! kept in collection 7 at soft age 3, `gone 5 8 of 3` that it is not, and `cleared` that it is not where all are.
use crate::tests::words::{parsed, small, tiny};
use jlr_soft::{Mode, Policy};
use jlr_types::{
    ActionNo, FieldKind, Handle, Layout, LimitFault, Limits, Meter, Mutator, Refusal, Rid, Slot,
};
use std::str::SplitWhitespace;
use std::test::Fail;

const ROWS: &str = "
    slot 65535
    handle 250
    mutator 63
    rid 255
    action 18446744073709551614
    layout riririri
    layout -
    ticks 2
    NoMemory 1
    HeapFull 2
    NoSession 13
    ResourcesFull 19
    limits 15 65 1 0 64 1 Cells
    limits 16 65 257 0 64 1 Sessions
    limits 16 64 257 0 64 1 Resources
    limits 16 64 256 1001 64 1 SoftAge
    limits 16 1 1 1000 63 0 Trace
    limits 16 1 1 1000 64 0 Budget
    limits 65537 1 1 0 64 1 Cells
    limits 16 1 1 0 64 1 good
    limits 65536 64 256 1000 1000000 4096 good
    gone 0 0 of 0
    gone 7 7 of 0
    gone 18446744073709551615 18446744073709551615 of 0
    kept 0 0 of 1
    gone 0 1 of 1
    kept 1 1 of 1
    kept 0 999 of 1000
    gone 0 1000 of 1000
    kept 5 1004 of 1000
    gone 5 1005 of 1000
    kept 18446744073709550616 18446744073709551615 of 1000
    gone 18446744073709550615 18446744073709551615 of 1000
    cleared 0 0 of 1000
    cleared 3 4 of 1000
";

fn is_kind(kind: Option<FieldKind>, letter: u8) -> bool {
    match kind {
        Some(FieldKind::Ref) => letter == b'r',
        Some(FieldKind::Int) => letter == b'i',
        None => false,
    }
}

// A layout of these letters, as far as there is room.
fn layout_of(letters: &[u8]) -> Layout {
    let mut layout = Layout::new();
    for &letter in letters {
        if layout.len() < 8 {
            layout.push(if letter == b'r' {
                FieldKind::Ref
            } else {
                FieldKind::Int
            });
        }
    }
    layout
}

fn has_fields(layout: &Layout, letters: &[u8]) -> bool {
    for (field, &letter) in letters.iter().enumerate() {
        if !is_kind(layout.get(field), letter) {
            return false;
        }
    }
    layout.len() == letters.len()
        && layout.get(letters.len()).is_none()
        && layout.is_empty() == letters.is_empty()
}

fn is_layout(words: &mut SplitWhitespace<'_>) -> bool {
    match words.next() {
        Some("-") => has_fields(&Layout::new(), b""),
        Some(letters) => has_fields(&layout_of(letters.as_bytes()), letters.as_bytes()),
        None => false,
    }
}

fn ticks(count: u64) -> u64 {
    let mut meter = Meter::new();
    for _ in 0..count {
        if meter.ticks() < 100 {
            meter.tick();
        }
    }
    meter.ticks()
}

fn fault_name(fault: LimitFault) -> &'static str {
    match fault {
        LimitFault::Cells => "Cells",
        LimitFault::Sessions => "Sessions",
        LimitFault::Resources => "Resources",
        LimitFault::SoftAge => "SoftAge",
        LimitFault::Trace => "Trace",
        LimitFault::Budget => "Budget",
    }
}

// Which limit of these is out of its range, in the order of the fields; or `good`, where all are within and kept as
// they are.
fn limits_told(numbers: &[u32; 6]) -> &'static str {
    let [cells, sessions, resources, soft_age, trace, budget] = *numbers;
    match Limits::checked(cells, sessions, resources, soft_age, trace, budget) {
        Err(fault) => fault_name(fault),
        Ok(limits) => if has_limits(&limits, numbers) {
            "good"
        } else {
            "other limits"
        },
    }
}

fn has_limits(limits: &Limits, numbers: &[u32; 6]) -> bool {
    let kept = [
        limits.cells,
        limits.sessions,
        limits.resources,
        limits.soft_age,
        limits.trace,
        limits.budget,
    ];
    kept == *numbers
}

fn are_limits(words: &mut SplitWhitespace<'_>) -> Option<bool> {
    let mut numbers = [0; 6];
    for number in &mut numbers {
        *number = parsed(words)?;
    }
    Some(words.next()? == limits_told(&numbers))
}

// Whether a policy keeps, after `5 7 of 3`.
fn is_kept(mode: Mode, words: &mut SplitWhitespace<'_>) -> Option<bool> {
    match (parsed(words), parsed(words), words.next(), parsed(words)) {
        (Some(last_get), Some(cycle), Some("of"), Some(age)) => {
            Some(Policy::new(age, mode).keeps(last_get, cycle))
        }
        _ => None,
    }
}

// Whether a row is true; not where it is no row.
fn holds(name: &str, words: &mut SplitWhitespace<'_>) -> bool {
    match name {
        "layout" => is_layout(words),
        "limits" => are_limits(words).unwrap_or(false),
        "kept" => matches!(is_kept(Mode::Policy, words), Some(true)),
        "gone" => matches!(is_kept(Mode::Policy, words), Some(false)),
        "cleared" => matches!(is_kept(Mode::ClearAll, words), Some(false)),
        _ => has_number(name, words),
    }
}

fn has_number(name: &str, words: &mut SplitWhitespace<'_>) -> bool {
    match parsed(words) {
        Some(number) => number_of(name, number) == Some(number),
        None => false,
    }
}

// The number of what was made of this number.
fn number_of(name: &str, number: u64) -> Option<u64> {
    match name {
        "slot" => Some(u64::from(Slot::new(small(number)).number())),
        "handle" => Some(u64::from(Handle::new(tiny(number)).number())),
        "mutator" => Some(u64::from(Mutator::new(tiny(number)).number())),
        "rid" => Some(u64::from(Rid::new(small(number)).number())),
        "action" => Some(ActionNo::new(number).number()),
        "ticks" => Some(ticks(number)),
        _ => Some(u64::from(refusal(name)?.number())),
    }
}

fn refusal(name: &str) -> Option<Refusal> {
    match name {
        "NoMemory" => Some(Refusal::NoMemory),
        "HeapFull" => Some(Refusal::HeapFull),
        "NoSession" => Some(Refusal::NoSession),
        "ResourcesFull" => Some(Refusal::ResourcesFull),
        _ => None,
    }
}

fn is_true(row: &str) -> bool {
    let mut words = row.split_whitespace();
    match words.next() {
        Some(name) => holds(name, &mut words) && words.next().is_none(),
        None => true,
    }
}

#[test]
fn each_row_is_true(_rt: HostRuntime) -> Result<(), Fail> {
    for row in ROWS.lines() {
        if !is_true(row) {
            return Err(Fail::new(format_args!("{row}")));
        }
    }
    Ok(())
}
