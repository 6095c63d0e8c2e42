//! What an audit tells who watches it, also where the one that explains stands between.
//!
//! A row is a change of the file, and behind the arrow what is told in its order: the image, with how many objects in
//! slots that are no cells; how many entries there are; how many were found legal; the seat of the next entry; and at
//! the end, where all are legal, how many objects are left.
use super::changes::changed;
use super::player::is_title;
use jlr_audit::explain::explainer::Explainer;
use jlr_audit::streamed::audit_streamed;
use jlr_audit::watch::Watch;
use jlr_machine::entry::Entry;
use jlr_machine::machine::Machine;
use jlr_trace::streamed::streamed_trace;
use jlr_trace_fields::parts::record::Placed;
use std::alloc::{AllocError, Global};
use std::cell::RefCell;
use std::test::Fail;

// The head; no objects; no session; seven empty lists; the next action and three counts; two entries: at seat 4 mutator
// 0 joins, and at seat 5 it leaves.
const FILE: &str = "
    4a4c5254 01 00000010 01 0010 0000000000000007
    00000000 00
    00000000 00000000 00000000 00000000 00000000 00000000 00000000
    0000000000000001 0000000000000000 0000000000000000 0000000000000000
    0000000000000002
    04 00 00 00 00
    05 01 00 00 00
";

const ROWS: &str = "
    all entries are legal, and there is one more object, and there is none:
    whole -> image 0 entries 2 legal 0 seat 4 legal 1 seat 5 end 0
    for 21 24 00000001 0000000f 0100 -> image 0 entries 2 legal 0 seat 4 legal 1 seat 5 end 1
    for 93 103 00 -> image 0 entries 0 end 0

    an entry is not legal:
    for 96 96 01 -> image 0 entries 2 legal 0 seat 4
    for 101 101 01 -> image 0 entries 2 legal 0 seat 4 legal 1 seat 5

    the bytes end within an entry:
    front 102 -> image 0 entries 2 legal 0 seat 4 legal 1

    the image is not well formed:
    for 61 61 00 -> image 0
    for 21 24 00000001 00000010 0100 -> image 1
";

/// Notes what it is told.
#[derive(Clone, Copy)]
struct Noting<'a> {
    alloc: Global,
    noted: &'a RefCell<String>,
}

impl Noting<'_> {
    fn keep(&self, text: &str) -> Result<(), AllocError> {
        if let Ok(mut noted) = self.noted.try_borrow_mut() {
            noted.push_str(text)?;
        }
        Ok(())
    }

    fn note(&self, name: &str, number: u64) -> Result<(), AllocError> {
        self.keep(format!(in self.alloc; " {name} {number}")?.as_str())
    }
}

impl Watch for Noting<'_> {
    fn told(&mut self, legal: usize) {
        let _ = self.note("legal", legal as u64);
    }

    fn sees_image(&mut self, _image: &Machine, strays: &[Placed]) {
        let _ = self.note("image", strays.len() as u64);
    }

    fn counts(&mut self, entries: u64) {
        let _ = self.note("entries", entries);
    }

    fn sees(&mut self, _machine: &Machine, entry: &Entry) {
        let _ = self.note("seat", u64::from(entry.seat));
    }

    fn leaves(&mut self, machine: &Machine) {
        let _ = self.note("end", count(machine) as u64);
    }
}

// How many objects there are.
fn count(machine: &Machine) -> usize {
    let places = machine.objects.as_slice();
    places.iter().filter(|place| place.is_some()).count()
}

/// Audits these bytes.
fn watched<W: Watch>(alloc: Global, bytes: &[u8], watch: &mut W) -> Result<(), Fail> {
    let Ok(trace) = streamed_trace(alloc, bytes) else {
        return Err(Fail::from("no history"));
    };
    let _ = audit_streamed(alloc, trace, watch);
    Ok(())
}

/// What is told of these bytes.
fn noted(alloc: Global, bytes: &[u8]) -> Result<String, Fail> {
    let text = RefCell::new(String::new(alloc));
    let mut noting = Noting {
        alloc,
        noted: &text,
    };
    let played = watched(alloc, bytes, &mut noting);
    let text = text.into_inner();
    played?;
    Ok(text)
}

/// The same behind the one that explains.
fn noted_behind(alloc: Global, bytes: &[u8]) -> Result<String, Fail> {
    let text = RefCell::new(String::new(alloc));
    let noting = Noting {
        alloc,
        noted: &text,
    };
    let mut explainer = Explainer::new(alloc, noting);
    let played = watched(alloc, bytes, &mut explainer);
    drop(explainer);
    let text = text.into_inner();
    played?;
    Ok(text)
}

fn compared(row: &str, told: &str, wanted: &str) -> Result<(), Fail> {
    if told.trim() == wanted {
        return Ok(());
    }
    Err(Fail::new(format_args!("not so: {row}:{told}")))
}

fn played(alloc: Global, row: &str) -> Result<(), Fail> {
    if is_title(row) {
        return Ok(());
    }
    let (change, wanted) = row.split_once(" -> ").ok_or("no row")?;
    let bytes = changed(alloc, FILE, change).ok_or("no bytes")?;
    compared(row, noted(alloc, bytes.as_slice())?.as_str(), wanted)?;
    compared(row, noted_behind(alloc, bytes.as_slice())?.as_str(), wanted)
}

#[test]
fn watches_are_told_as_the_rows_say(rt: HostRuntime) -> Result<(), Fail> {
    for row in ROWS.lines() {
        played(rt.alloc(), row.trim())?;
    }
    Ok(())
}
