//! Reading a trace file.
ghost use Rattle.std.specs.Prelude.{◌≡◌, ◌↔◌, ℕ, [], ◌++◌, List, Ok, IfErr, IfOk, IsTrue};
ghost use Rattle.std.specs.Int.{w64};
ghost use Rattle.jlr_trace_fields.specs.Reading.{number_at};
ghost use Rattle.jlr_trace_fields.specs.declared.version.Version.TheVariants.{One, Two};
ghost use Rattle.jlr_trace.specs.declared.file.TraceFault.TheVariants.{NoMemory};
ghost use Rattle.jlr_trace.specs.declared.file.TraceFile.{TraceFile as TraceFileOf};
ghost use Rattle.jlr_trace_entries.specs.Images.{image_text, image_read, HasShape};
ghost use Rattle.jlr_trace.specs.Files.{FileText, image_of, file_text, spelled_file, FileFits, HasSpelling, told};
ghost use Rattle.jlr_trace.specs.Files.{expected, version_read, mark_read, in_entry, entries_read, file_read};
ghost use Rattle.jlr_trace.specs.Files.{FileGives, FileReads};
ghost use Rattle.jlr_trace.specs.Faults.{IsFault};
ghost use Rattle.jlr_trace.specs.ToEnd.{entries_to_end};
ghost use Rattle.jlr_trace.specs.Versions.{fits_version_1, in_version};

use jlr_machine::entry::Entry;
use jlr_machine::items::Items;
use jlr_machine::machine::Machine;
use jlr_trace_entries::entry::take_entry;
use jlr_trace_entries::image::{Image, take_image};
use jlr_trace_fields::cursor::take_u64;
use jlr_trace_fields::fault::{Fault, ReadError};
use jlr_trace_fields::parts::record::Placed;
use jlr_trace_fields::version::Version;
use std::alloc::{AllocError, AllocFailed, Global};

/// A history: what is at its head, and what happened from there on.
pub struct TraceFile {
    /// The version of its spelling.
    pub version: Version,
    /// How many entries there were before.
    pub base: u64,
    /// The machine from which the entries go on, with its limits.
    pub image: Machine,
    /// Objects in slots that are no cells of the image, with rising slots. An image that has any is not well formed.
    pub strays: Items<Placed>,
    /// What happened, in order.
    pub entries: Items<Entry>,
}

// By hand: each exit of a caller then has one call, where a derived drop writes out every field.
impl Drop for TraceFile {
    fn drop(self) {
        let TraceFile {
            version: _,
            base: _,
            image: _,
            strays: _,
            entries: _,
        } = self;
    }
}

/// Why bytes are no trace file: the first fault from the front.
#[derive(Clone, Copy, PartialEq, Eq, Debug)]
pub enum TraceFault {
    /// The bytes end before the file does.
    Truncated,
    /// The bytes do not begin with the mark.
    BadMark,
    /// The version is not known.
    BadVersion,
    /// A value is out of its range or order: in this entry, or 0 before the entries, or one more than there are after
    /// them.
    BadEntry(u64),
    /// There is no memory.
    NoMemory,
}

impl From<AllocError> for TraceFault {
    ghost from_gives = { λ _ e. e ≡ NoMemory };

    fn from(_e: AllocError) -> TraceFault {
        TraceFault::NoMemory
    }
}

impl<T: Drop> From<AllocFailed<T>> for TraceFault {
    ghost from_gives = { λ _ e. e ≡ NoMemory };

    fn from(_e: AllocFailed<T>) -> TraceFault {
        TraceFault::NoMemory
    }
}

/// The fault of a field in this entry.
pub(crate) fn fault_of(error: ReadError, number: u64) -> TraceFault
    ensures { result ≡ told number error }
{
    match error {
        ReadError::Memory => TraceFault::NoMemory,
        ReadError::Fault(Fault::Short) => TraceFault::Truncated,
        ReadError::Fault(Fault::Range) => TraceFault::BadEntry(number),
    }
}

/// What stands behind one byte of the mark.
fn expect_byte(byte: u8, bytes: &[u8]) -> Result<&[u8], TraceFault>
    ensures { FileGives (λ x. x.now) result (expected byte bytes.now) }
{
    match bytes {
        [] => Err(TraceFault::Truncated),
        [first, rest @ ..] => {
            if *first == byte {
                return Ok(rest);
            }
            Err(TraceFault::BadMark)
        }
    }
}

fn version_at(bytes: &[u8]) -> Result<(Version, &[u8]), TraceFault>
    ensures { FileGives (λ x. (x.0, x.1.now)) result (version_read bytes.now) }
{
    match bytes {
        [] => Err(TraceFault::Truncated),
        [1, rest @ ..] => Ok((Version::One, rest)),
        [2, rest @ ..] => Ok((Version::Two, rest)),
        [_, ..] => Err(TraceFault::BadVersion),
    }
}

/// The version, which stands behind the mark, and what stands behind both. The mark is compared byte by byte.
#[tactic(auto, unfolding(crate::specs::Files::mark_read))]
pub(crate) fn mark_at(bytes: &[u8]) -> Result<(Version, &[u8]), TraceFault>
    ensures { FileGives (λ x. (x.0, x.1.now)) result (mark_read bytes.now) }
{
    let rest = expect_byte(b'J', bytes)?;
    let rest = expect_byte(b'L', rest)?;
    let rest = expect_byte(b'R', rest)?;
    let rest = expect_byte(b'T', rest)?;
    version_at(rest)
}

pub(crate) fn image_in(
    alloc: Global,
    version: Version,
    bytes: &mut &[u8],
) -> Result<Image, TraceFault>
    ensures reads { FileReads image_text result bytes.new.now (in_entry 0 (image_read version bytes.old.now)) }
    ensures shape { IfOk result HasShape }
{
    match take_image(alloc, version, bytes) {
        Ok(image) => Ok(image),
        Err(error) => Err(fault_of(error, 0)),
    }
}

pub(crate) fn count_in(bytes: &mut &[u8]) -> Result<u64, TraceFault>
    ensures { FileReads (λ x. x) result bytes.new.now (in_entry 0 (number_at w64 bytes.old.now)) }
{
    match take_u64(bytes) {
        Ok(count) => Ok(count),
        Err(error) => Err(fault_of(error, 0)),
    }
}

/// So many entries, counted from 1.
fn entries_at(
    alloc: Global,
    version: Version,
    count: u64,
    bytes: &mut &[u8],
) -> Result<Vec<Entry>, TraceFault>
    ensures { FileReads (λ x. x.items) result bytes.new.now (entries_read version 1 count bytes.old.now) }
{
    let mut entries: Vec<Entry> = Vec::new(alloc);
    for number in 0..count {
        match take_entry(alloc, version, bytes) {
            Ok(entry) => entries.push(entry)?,
            Err(error) => return Err(fault_of(error, number + 1)),
        }
    }
    Ok(entries)
}

fn file_of(version: Version, image: Image, entries: Vec<Entry>) -> TraceFile
    requires { HasShape image }
    ensures text { file_text result ≡ record { version = version; image = image_text image; entries = entries.items } }
    ensures shape { HasShape (image_of result) }
{
    let Image {
        base,
        machine,
        strays,
    } = image;
    TraceFile {
        version,
        base,
        image: machine,
        strays,
        entries: Items::from_vec(entries),
    }
}

/// The entries behind an image, up to the end of the bytes.
#[tactic(auto, unfolding(crate::specs::ToEnd::entries_to_end))]
fn entries_to_end(
    alloc: Global,
    version: Version,
    bytes: &mut &[u8],
) -> Result<Vec<Entry>, TraceFault>
    ensures { FileGives (λ x. x.items) result (entries_to_end version bytes.old.now) }
{
    let count = count_in(bytes)?;
    let entries = entries_at(alloc, version, count, bytes)?;
    if !bytes.is_empty() {
        return Err(TraceFault::BadEntry(entries.len() as u64 + 1));
    }
    Ok(entries)
}

/// All of the bytes. Where the entries have a fault, the image is dropped by a call, for the prover: no return path
/// then proves the drop of each of its parts.
#[tactic(auto, unfolding(crate::specs::Files::front_read, crate::specs::Files::file_read))]
fn all_of(alloc: Global, bytes: &[u8]) -> Result<TraceFile, TraceFault>
    ensures exact { FileGives file_text result (file_read bytes.now) }
    ensures shape { IfOk result (λ f. HasShape (image_of f)) }
{
    let (version, behind) = mark_at(bytes)?;
    let mut rest = behind;
    let image = image_in(alloc, version, &mut rest)?;
    match entries_to_end(alloc, version, &mut rest) {
        Ok(entries) => Ok(file_of(version, image, entries)),
        Err(fault) => {
            drop(image);
            Err(fault)
        }
    }
}

/// The history that the bytes spell, all of the bytes.
///
/// # Errors
/// The first fault from the front, or `NoMemory`. A count takes no memory beforehand: memory is taken as the items
/// come.
pub fn read_trace(alloc: Global, bytes: &[u8]) -> Result<TraceFile, TraceFault>
    // What is read is spelled so.
    ensures found { IfOk result (λ f. FileFits (file_text f) × (bytes.now ≡ spelled_file (file_text f))) }
    // What is spelled so is read, unless memory runs out.
    ensures only { (t : FileText) → FileFits t → bytes.now ≡ spelled_file t → FileGives file_text result (Ok t) }
    // Which fault it is.
    ensures exact { FileGives file_text result (file_read bytes.now) }
    // The fault is the first one of the bytes: what stands before it is spelled, and what comes next is not.
    ensures fault { IfErr result (λ e. IsFault e bytes.now) }
    // What its text does not say: no cycle is open, nothing was seen, strays lie in no cells, and how many places
    // handles have.
    ensures shape { IfOk result (λ f. HasShape (image_of f)) }
    // What was written is read back as it was.
    ensures again { (f : TraceFileOf) → HasSpelling f → bytes.now ≡ spelled_file (file_text f)
        → FileGives (λ x. x) result (Ok f) }
{
    all_of(alloc, bytes)
}

/// A file that begins with another is that other: what was written is read back, and never as a part of something
/// longer.
pub fn no_file_begins_another()
    ensures { (t u : FileText) (rest : List ℕ) → FileFits t → FileFits u → spelled_file t ++ rest ≡ spelled_file u
        → (rest ≡ []) × (t ≡ u) }
{}

/// Version 1 can tell a history where version 2 can, no object is an array, no ask makes one, and no field's number is
/// above 255.
pub fn what_version_1_can_tell()
    ensures { (t : FileText) → FileFits (in_version One t) ↔ (FileFits (in_version Two t) × IsTrue (fits_version_1 t)) }
{}
