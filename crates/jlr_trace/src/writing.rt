//! Writing a trace file.
ghost use Rattle.std.specs.Prelude.{◌≡◌, ◌<◌, ◌^◌, [], ◌++◌, IfOk, OnOk};
ghost use Rattle.std.specs.List.{flat_map, AllByRecursion};
ghost use Rattle.jlr_trace_entries.specs.Entries.{spelled_entry, EntryCounts};
ghost use Rattle.jlr_trace.specs.Writing.{FileCounts};
ghost use Rattle.jlr_machine.specs.WellFormed.{IsImage};
ghost use Rattle.jlr_trace_fields.specs.declared.version.Version.TheVariants.{Two};
ghost use Rattle.jlr_trace_entries.specs.Images.{image_text, whole_image};
ghost use Rattle.jlr_trace_entries.specs.Writing.{ImageCounts};
ghost use Rattle.jlr_trace.specs.Files.{file_text, file_with, version_number, mark, spelled_file, spelled_front};
ghost use Rattle.jlr_trace.specs.Files.{HasSpelling};
ghost use Rattle.jlr_trace.specs.Ranges.{LimitsInRange, MachineRange};

use crate::file::TraceFile;
use crate::ranges::machine::machine_in_range;
use jlr_machine::entry::Entry;
use jlr_machine::machine::Machine;
use jlr_trace_entries::entry::put_entry;
use jlr_trace_entries::writing::put_image;
use jlr_trace_fields::number::put_u64;
use jlr_trace_fields::parts::record::Placed;
use jlr_trace_fields::version::Version;
use std::alloc::{AllocError, Global};

fn put_entries(out: &mut Vec<u8>, version: Version, entries: &[Entry]) -> Result<(), AllocError>
    requires { AllByRecursion (EntryCounts version) entries.now }
    ensures { OnOk result (out.new.items ≡ out.old.items ++ flat_map (spelled_entry version) entries.now) }
{
    for entry in entries {
        put_entry(out, version, entry)?;
    }
    Ok(())
}

fn number_of(version: Version) -> u8
    ensures { result ≡ version_number version }
{
    match version {
        Version::One => 1,
        Version::Two => 2,
    }
}

/// Writes the mark and the version.
fn put_mark(out: &mut Vec<u8>, version: Version) -> Result<(), AllocError>
    ensures { OnOk result (out.new.items ≡ out.old.items ++ mark version) }
{
    out.extend_from_slice(&[b'J', b'L', b'R', b'T', number_of(version)])?;
    Ok(())
}

/// Writes what stands before so many entries.
fn put_front(
    out: &mut Vec<u8>,
    version: Version,
    base: u64,
    image: &Machine,
    strays: &[Placed],
    count: u64,
) -> Result<(), AllocError>
    requires { ImageCounts image.now strays.now }
    ensures { let text = image_text (whole_image base image.now strays.now) in
        OnOk result (out.new.items ≡ out.old.items ++ spelled_front version text count) }
{
    put_mark(out, version)?;
    put_image(out, base, image, strays)?;
    put_u64(out, count)
}

fn put_file(
    out: &mut Vec<u8>,
    version: Version,
    base: u64,
    image: &Machine,
    strays: &[Placed],
    entries: &[Entry],
) -> Result<(), AllocError>
    requires { FileCounts (file_with version base image.now strays.now entries.now) }
    ensures { OnOk result (out.new.items ≡ out.old.items
        ++ spelled_file (file_text (file_with version base image.now strays.now entries.now))) }
{
    put_front(out, version, base, image, strays, entries.len() as u64)?;
    put_entries(out, version, entries)
}

/// The one spelling of a history that has one; `read_trace` reads it back as it was.
///
/// # Errors
/// `AllocError` where there is no memory.
pub fn write_trace(alloc: Global, file: &TraceFile) -> Result<Vec<u8>, AllocError>
    requires { HasSpelling file.now }
    ensures { IfOk result (λ v. v.items ≡ spelled_file (file_text file.now)) }
{
    let mut out: Vec<u8> = Vec::new(alloc);
    put_file(
        &mut out,
        file.version,
        file.base,
        &file.image,
        file.strays.as_slice(),
        file.entries.as_slice(),
    )?;
    Ok(out)
}

fn base_in_range(base: u64)
    ensures { base < 2 ^ 64 }
{}

/// What stands before so many entries in the spelling of version 2: how many entries there were before, and the image,
/// a well-formed machine with no cycle open, whose limits are such as a heap may have.
///
/// # Errors
/// `AllocError` where there is no memory.
pub fn begin_history(
    alloc: Global,
    base: u64,
    image: &Machine,
    count: u64,
) -> Result<Vec<u8>, AllocError>
    requires image { IsImage image.now }
    requires limits { LimitsInRange image.now }
    ensures bytes { IfOk result (λ v. v.items ≡ spelled_front Two (image_text (whole_image base image.now [])) count) }
    ensures range { MachineRange image.now }
{
    base_in_range(base);
    machine_in_range(image);
    let mut out: Vec<u8> = Vec::new(alloc);
    put_front(&mut out, Version::Two, base, image, &[], count)?;
    Ok(out)
}
