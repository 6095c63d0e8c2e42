//! A trace file that is read as it comes: its image, and then its entries one at a time.
ghost use Rattle.std.specs.Prelude.{◌≡◌, ◌+◌, ◌-◌, ◌<◌, ◌≤◌, ◌^◌, option_map, length, drop, IfOk, IfErr, OnOk};
ghost use Rattle.std.specs.Io.KnownBytes.{Keeps, IsAtEnd};
ghost use Rattle.jlr_trace_entries.specs.Entries.{entry_read};
ghost use Rattle.jlr_trace_entries.specs.Images.{image_text, whole_image, HasShape};
ghost use Rattle.jlr_trace.specs.declared.file.TraceFault.TheVariants.{Truncated};
ghost use Rattle.jlr_trace.specs.declared.window.StreamFault.{StreamFault as StreamFaultOf};
ghost use Rattle.jlr_trace.specs.Files.{in_entry, file_read, FileGives, FileReads};
ghost use Rattle.jlr_trace.specs.Streams.{known, AreBytes, IsLast, ReadsOn, FailsOn, heading_text, heading_read};
ghost use Rattle.jlr_trace.specs.Streams.{end_read, coming, NoneComes, Comes, IsReadAs, SpellsWhatComes, history};
ghost use Rattle.jlr_trace.specs.Streams.{AreSoMany};

use crate::file::{TraceFault, count_in, fault_of, image_in, mark_at};
use crate::window::{StreamFault, Window};
use jlr_machine::entry::Entry;
use jlr_machine::items::Items;
use jlr_machine::machine::Machine;
use jlr_trace_entries::entry::take_entry;
use jlr_trace_entries::image::Image;
use jlr_trace_fields::parts::record::Placed;
use jlr_trace_fields::version::Version;
use std::alloc::Global;
use std::io::{ErrorKind, Read};
use std::marker::Model;

/// The head of a trace file: what stands before its entries.
#[derive(Drop)]
struct Heading {
    version: Version,
    image: Image,
    count: u64,
}

/// A history whose entries are still to be read.
#[derive(Drop)]
pub struct StreamedTrace<R: Read> {
    /// The version of its spelling.
    pub version: Version,
    /// How many entries there were before.
    pub base: u64,
    /// The machine from which the entries go on, with its limits.
    pub image: Machine,
    /// Objects in slots that are no cells of the image, with rising slots. An image that has any is not well formed.
    pub strays: Items<Placed>,
    /// How many entries there are.
    pub count: u64,
    /// What happened, in order.
    pub entries: StreamedEntries<R>,
}

/// The entries of a stream that were not read yet. Contracts see how many there are, and what they are read as.
#[derive(Drop)]
pub struct StreamedEntries<R: Read> {
    alloc: Global,
    version: Version,
    passed: u64,
    left: u64,
    window: Window<R>,
}

impl<R: Read> Model for StreamedEntries<R> {
    ghost use Rattle.std.specs.Prelude.{◌+◌, ◌<◌, ◌^◌};
    ghost use Rattle.jlr_trace.specs.Streams.{Coming, coming};

    ghost Value = { Coming };

    ghost view = { λ e. coming e.version (e.passed + 1) e.left e.window };

    ghost invariant = { λ e. e.passed + e.left < 2 ^ 64 };
}

impl<R: Read> StreamedEntries<R> {
    /// How many there are.
    pub fn left(&self) -> u64
        ensures { result ≡ self.now.left }
    {
        self.left
    }

    /// The next entry.
    ///
    /// # Errors
    /// `Unread` where a read fails, and `Damaged` with the fault of the bytes, or where there is no memory. Then the
    /// others cannot be read.
    pub fn next(&mut self) -> Result<Entry, StreamFault>
        requires { 0 < self.old.left }
        ensures next { IfOk result (λ e. Comes e self.old self.new) }
        ensures fault { IfErr result (λ f. FailsOn f self.old.entries) }
    {
        let number = self.passed + 1;
        match next_entry(self.alloc, self.version, number, &mut self.window) {
            Ok(entry) => {
                self.passed = number;
                self.left -= 1;
                Ok(entry)
            }
            Err(fault) => Err(fault),
        }
    }

    /// Finds that the bytes end behind the last entry.
    ///
    /// # Errors
    /// As for an entry.
    pub fn end(&mut self) -> Result<(), StreamFault>
        requires { self.old.left ≡ 0 }
        ensures end { OnOk result (NoneComes self.old.entries) }
        ensures rest { OnOk result (IsAtEnd self.old.rest) }
        ensures fault { IfErr result (λ f. FailsOn f self.old.entries) }
    {
        let Some(number) = self.passed.checked_add(1) else {
            return Err(StreamFault::Unread(ErrorKind::Other));
        };
        end_of(number, &mut self.window)
    }
}

// ---- What stands at the front of bytes

/// How many bytes at the front were used, of which these are left.
fn used(bytes: &[u8], rest: &[u8]) -> usize
    requires { length rest.now ≤ length bytes.now }
    ensures { result ≡ length bytes.now - length rest.now }
{
    bytes.len() - rest.len()
}

#[tactic(auto, unfolding(crate::specs::Streams::heading_read))]
fn heading_in(alloc: Global, bytes: &mut &[u8]) -> Result<Heading, TraceFault>
    ensures reads { FileReads (λ h. heading_text h.version (image_text h.image) h.count) result bytes.new.now
        (heading_read bytes.old.now) }
    ensures shape { IfOk result (λ h. HasShape h.image) }
{
    let (version, behind) = mark_at(bytes)?;
    *bytes = behind;
    let image = image_in(alloc, version, bytes)?;
    match count_in(bytes) {
        Ok(count) => Ok(Heading {
            version,
            image,
            count,
        }),
        Err(fault) => {
            drop(image);
            Err(fault)
        }
    }
}

/// The head of a file, and how many bytes it takes.
fn heading_at(alloc: Global, bytes: &[u8]) -> Result<(Heading, usize), TraceFault>
    ensures reads { FileGives (λ x. (heading_text x.0.version (image_text x.0.image) x.0.count, drop x.1 bytes.now))
        result (heading_read bytes.now) }
    ensures within { IfOk result (λ x. x.1 ≤ length bytes.now) }
    ensures shape { IfOk result (λ x. HasShape x.0.image) }
{
    let mut rest = bytes;
    match heading_in(alloc, &mut rest) {
        Ok(heading) => Ok((heading, used(bytes, rest))),
        Err(fault) => Err(fault),
    }
}

/// The entry of this number, and how many bytes it takes.
fn entry_at(
    alloc: Global,
    version: Version,
    number: u64,
    bytes: &[u8],
) -> Result<(Entry, usize), TraceFault>
    ensures reads { FileGives (λ x. (x.0, drop x.1 bytes.now)) result
        (in_entry number (entry_read version bytes.now)) }
    ensures within { IfOk result (λ x. x.1 ≤ length bytes.now) }
{
    let mut rest = bytes;
    match take_entry(alloc, version, &mut rest) {
        Ok(entry) => Ok((entry, used(bytes, rest))),
        Err(error) => Err(fault_of(error, number)),
    }
}

// ---- What is next in a stream

/// Reads more where bytes are missing. Any other fault is that of the bytes, and so is this one at their end.
fn more_for<R: Read>(fault: TraceFault, window: &mut Window<R>) -> Result<(), StreamFault>
    ensures more { OnOk result ((fault ≡ Truncated) × Keeps (known window.old) (known window.new)) }
    ensures last { IfErr result (λ f. IsLast fault window.old f) }
{
    if fault != TraceFault::Truncated {
        return Err(StreamFault::Damaged(fault));
    }
    if window.fill()? {
        return Ok(());
    }
    Err(StreamFault::Damaged(TraceFault::Truncated))
}

fn next_heading<R: Read>(alloc: Global, window: &mut Window<R>) -> Result<Heading, StreamFault>
    ensures reads { IfOk result (λ h. ReadsOn heading_read (heading_text h.version (image_text h.image) h.count)
        (known window.old) (known window.new)) }
    ensures bytes { OnOk result (AreBytes (known window.old) (known window.new)) }
    ensures shape { IfOk result (λ h. HasShape h.image) }
    ensures fault { IfErr result (λ f. FailsOn f (option_map heading_read (known window.old))) }
{
    for _ in 0..u64::MAX {
        match heading_at(alloc, window.front()) {
            Ok((heading, used)) => {
                window.advance(used);
                return Ok(heading);
            }
            Err(fault) => {
                if let Err(last) = more_for(fault, window) {
                    return Err(last);
                }
            }
        }
    }
    Err(StreamFault::Unread(ErrorKind::Other))
}

fn next_entry<R: Read>(
    alloc: Global,
    version: Version,
    number: u64,
    window: &mut Window<R>,
) -> Result<Entry, StreamFault>
    ensures reads { IfOk result (λ e. ReadsOn (λ bytes. in_entry number (entry_read version bytes)) e
        (known window.old) (known window.new)) }
    ensures bytes { OnOk result (AreBytes (known window.old) (known window.new)) }
    ensures fault { IfErr result (λ f. FailsOn f
        (option_map (λ bytes. in_entry number (entry_read version bytes)) (known window.old))) }
{
    for _ in 0..u64::MAX {
        match entry_at(alloc, version, number, window.front()) {
            Ok((entry, used)) => {
                window.advance(used);
                return Ok(entry);
            }
            Err(fault) => {
                if let Err(last) = more_for(fault, window) {
                    return Err(last);
                }
            }
        }
    }
    Err(StreamFault::Unread(ErrorKind::Other))
}

/// Where bytes stand behind the last entry, which has the number before this one, that is a fault.
fn end_of<R: Read>(number: u64, window: &mut Window<R>) -> Result<(), StreamFault>
    ensures end { OnOk result (IsAtEnd (known window.old)) }
    ensures fault { IfErr result (λ f. FailsOn f (option_map (end_read number) (known window.old))) }
{
    if !window.front().is_empty() {
        return Err(StreamFault::Damaged(TraceFault::BadEntry(number)));
    }
    if window.fill()? {
        return Err(StreamFault::Damaged(TraceFault::BadEntry(number)));
    }
    Ok(())
}

// ---- A file

fn trace_of<R: Read>(alloc: Global, heading: Heading, window: Window<R>) -> StreamedTrace<R>
    requires { HasShape heading.image }
    ensures text { heading_text result.version (image_text (whole_image result.base result.image result.strays))
        result.count ≡ heading_text heading.version (image_text heading.image) heading.count }
    ensures shape { HasShape (whole_image result.base result.image result.strays) }
    ensures entries { result.entries ≡ coming heading.version 1 heading.count window }
{
    let Heading {
        version,
        image,
        count,
    } = heading;
    let Image {
        base,
        machine,
        strays,
    } = image;
    StreamedTrace {
        version,
        base,
        image: machine,
        strays,
        count,
        entries: StreamedEntries {
            alloc,
            version,
            passed: 0,
            left: count,
            window,
        },
    }
}

/// The history that a stream spells, up to its end: what stands before its entries is read, and they are read one by
/// one. Memory is taken for the image, and then for one entry at a time.
///
/// # Errors
/// `Unread` where a read fails, and `Damaged` with the first fault of the bytes.
pub fn streamed_trace<R: Read + Drop>(
    alloc: Global,
    reader: R,
) -> Result<StreamedTrace<R>, StreamFault>
    // What the entries will be read as is what the bytes are read as.
    ensures exact { IfOk result (λ t. IsReadAs t.version (image_text (whole_image t.base t.image t.strays))
        (R.remaining reader) t.entries.entries) }
    // Where they come up to the end, the bytes spell the history with them; their fault is that of the bytes.
    ensures found { IfOk result (λ t. SpellsWhatComes (history t.version t.base t.image t.strays)
        (R.remaining reader) t.entries.entries) }
    ensures fails { IfOk result (λ t. (f : StreamFaultOf) → FailsOn f t.entries.entries
        → FailsOn f (option_map file_read (R.remaining reader))) }
    // What was read is bytes.
    ensures bytes { IfOk result (λ t. AreBytes (R.remaining reader) t.entries.rest) }
    // There are as many as were told.
    ensures left { IfOk result (λ t. t.entries.left ≡ t.count) }
    ensures counted { IfOk result (λ t. AreSoMany t.count t.entries.entries) }
    // What its text does not say: no cycle is open, nothing was seen, strays lie in no cells, and how many places
    // handles have.
    ensures shape { IfOk result (λ t. HasShape (whole_image t.base t.image t.strays)) }
    // The fault is the first one of the bytes.
    ensures fault { IfErr result (λ f. FailsOn f (option_map file_read (R.remaining reader))) }
{
    let mut window = Window::new(alloc, reader)?;
    match next_heading(alloc, &mut window) {
        Ok(heading) => Ok(trace_of(alloc, heading, window)),
        Err(fault) => {
            drop(window);
            Err(fault)
        }
    }
}
