//! The audit of a saved history: `refheap audit FILE`.
ghost use Rattle.std.specs.Prelude.{◌≡◌, option_map, IfOk, IfErr, OnOk};
ghost use Rattle.std.specs.Io.KnownBytes.{Appends};
ghost use Rattle.jlr_audit.specs.Streams.{IsStreamVerdict};
ghost use Rattle.jlr_trace.specs.Files.{file_read};
ghost use Rattle.jlr_trace.specs.Streams.{FailsOn, AllAreBytes};
ghost use Rattle.jlr_commands.specs.Audits.{IsStreamDamage, IsStreamJudged, IsStreamLegal, IsVerdictOutcome};
ghost use Rattle.jlr_commands.specs.Audits.{number_of_version, verdict_line};

use crate::history_file::{fault_of, opened};
use crate::progress::Progress;
use crate::text::write_text;
use jlr_audit::explain::explainer::Explainer;
use jlr_audit::streamed::audit_streamed;
use jlr_audit::verdict::Verdict;
use jlr_audit::watch::Watch;
use jlr_command_line::arguments::AuditOrder;
use jlr_command_line::fault::ProgramFault;
use jlr_trace::streamed::{StreamedTrace, streamed_trace};
use jlr_trace::window::StreamFault;
use jlr_trace_fields::version::Version;
use std::alloc::{AllocError, Global};
use std::io::{Read, Write};

/// A verdict on a history, how many entries it has and how many came before, and the version of its file.
#[derive(Clone, Copy)]
pub struct Judged {
    pub verdict: Verdict,
    pub entries: u64,
    pub base: u64,
    pub version: Version,
}

/// The verdict on a history whose entries are still to be read.
fn verdict_of_trace<R: Read + Drop, W: Watch>(
    alloc: Global,
    trace: StreamedTrace<R>,
    watch: &mut W,
) -> Result<Judged, StreamFault>
    ensures verdict { IfOk result (λ j. IsStreamVerdict trace.strays trace.image trace.entries.entries j.verdict
        × (j.entries ≡ trace.count) × (j.base ≡ trace.base) × (j.version ≡ trace.version)) }
    ensures bytes { OnOk result (AllAreBytes trace.entries.rest) }
    ensures fault { IfErr result (λ f. FailsOn f trace.entries.entries) }
{
    let version = trace.version;
    let base = trace.base;
    let entries = trace.count;
    match audit_streamed(alloc, trace, watch) {
        Ok(verdict) => Ok(Judged {
            verdict,
            entries,
            base,
            version,
        }),
        Err(fault) => Err(fault),
    }
}

/// The verdict on the history that a stream spells, which is read to its end, with one entry in memory at a time.
///
/// # Errors
/// `Unread` where a read fails, and `Damaged` with the first fault of all bytes, where they spell none, or where there
/// is no memory.
pub(crate) fn verdict_of<R: Read + Drop, W: Watch>(
    alloc: Global,
    reader: R,
    watch: &mut W,
) -> Result<Judged, StreamFault>
    ensures verdict { IfOk result (λ j. IsStreamJudged (R.remaining reader) j) }
    ensures fault { IfErr result (λ f. FailsOn f (option_map file_read (R.remaining reader))) }
{
    match streamed_trace(alloc, reader) {
        Ok(trace) => verdict_of_trace(alloc, trace, watch),
        Err(fault) => Err(fault),
    }
}

/// The same with why the program ends, where there is no verdict.
fn judged_file<R: Read + Drop, W: Watch>(
    alloc: Global,
    path: &str,
    reader: R,
    watch: &mut W,
) -> Result<Judged, ProgramFault>
    ensures verdict { IfOk result (λ j. IsStreamJudged (R.remaining reader) j) }
    ensures fault { IfErr result (λ e. IsStreamDamage (R.remaining reader) e) }
{
    match verdict_of(alloc, reader, watch) {
        Ok(judged) => Ok(judged),
        Err(fault) => Err(fault_of(alloc, path, fault)),
    }
}

fn version_number(version: Version) -> u8
    ensures { result ≡ number_of_version version }
{
    match version {
        Version::One => 1,
        Version::Two => 2,
    }
}

/// Writes the verdict and the version of the file, as one line.
fn tell<W: Write>(alloc: Global, writer: &mut W, judged: Judged) -> Result<(), ProgramFault>
    ensures { OnOk result (Appends (W.contents writer.old) (W.contents writer.new) (verdict_line judged)) }
{
    let entries = judged.entries;
    let version = version_number(judged.version);
    let line = match judged.verdict {
        Verdict::Legal => format!(in alloc; "legal {entries} version {version}\n")?,
        Verdict::Illegal(number) => format!(in alloc; "illegal {number} version {version}\n")?,
    };
    write_text(writer, line.as_str())
}

/// What a verdict is to the program.
pub(crate) fn outcome_of(verdict: Verdict) -> Result<(), ProgramFault>
    ensures { IsVerdictOutcome verdict result }
{
    match verdict {
        Verdict::Legal => Ok(()),
        Verdict::Illegal(_) => Err(ProgramFault::Illegal),
    }
}

/// The verdict on a file, and why it is not legal, where that is asked for and it is not.
fn explained<R: Read + Drop, V: Watch + Drop>(
    alloc: Global,
    asked: AuditOrder<'_>,
    reader: R,
    watch: V,
) -> Result<(Judged, Result<Option<String>, AllocError>), ProgramFault>
    ensures verdict { IfOk result (λ x. IsStreamJudged (R.remaining reader) x.0) }
{
    let mut watch = watch;
    if !asked.explain {
        return match judged_file(alloc, asked.file, reader, &mut watch) {
            Ok(judged) => Ok((judged, Ok(None))),
            Err(fault) => Err(fault),
        };
    }
    let mut explainer = Explainer::new(alloc, watch);
    match judged_file(alloc, asked.file, reader, &mut explainer) {
        Ok(judged) => {
            let said = explainer.said();
            if judged.verdict == Verdict::Legal {
                drop(said);
                return Ok((judged, Ok(None)));
            }
            Ok((judged, said))
        }
        Err(fault) => {
            drop(explainer);
            Err(fault)
        }
    }
}

/// What a legal history is relative to, where entries came before it: they are not in the file.
fn beginning(alloc: Global, judged: Judged) -> Result<Option<String>, ProgramFault> {
    let base = judged.base;
    if base == 0 || judged.verdict != Verdict::Legal {
        return Ok(None);
    }
    let line = format!(in alloc;
        "it goes on from the machine in the file, after {base} entries that are not"
    )?;
    Ok(Some(line))
}

/// Writes what is said of a verdict, as one line.
fn explain<W: Write>(alloc: Global, writer: &mut W, why: &str) -> Result<(), ProgramFault> {
    let line = format!(in alloc; "{why}\n")?;
    write_text(writer, line.as_str())
}

/// Writes the verdict, the version of the file and why it is not legal, as JSON in one line. No sentence has a
/// character that JSON escapes.
fn tell_json<W: Write>(
    alloc: Global,
    writer: &mut W,
    judged: Judged,
    why: &str,
) -> Result<(), ProgramFault> {
    let Judged { entries, base, .. } = judged;
    let version = version_number(judged.version);
    let line = match judged.verdict {
        Verdict::Legal => format!(in alloc;
            "{{\"legal\":true,\"entries\":{entries},\"before\":{base},\"version\":{version}}}\n"
        )?,
        Verdict::Illegal(number) => format!(in alloc;
            "{{\"legal\":false,\"entry\":{number},\"entries\":{entries},\"before\":{base},\"version\":{version},\"why\":\"{why}\"}}\n"
        )?,
    };
    write_text(writer, line.as_str())
}

/// Audits what a reader gives, and writes the verdict; where it is to be explained, also why it is not legal. It ends
/// well only where that spells a legal history.
fn audit_over<R: Read + Drop, V: Watch + Drop, W: Write>(
    alloc: Global,
    asked: AuditOrder<'_>,
    reader: R,
    watch: V,
    writer: &mut W,
) -> Result<(), ProgramFault>
    ensures { OnOk result (IsStreamLegal (R.remaining reader)) }
{
    let (judged, why) = match explained(alloc, asked, reader, watch) {
        Ok(explained) => explained,
        Err(fault) => return Err(fault),
    };
    tell_all(alloc, asked, judged, why, writer)?;
    outcome_of(judged.verdict)
}

/// Writes what is asked for of a verdict.
fn tell_all<W: Write>(
    alloc: Global,
    asked: AuditOrder<'_>,
    judged: Judged,
    why: Result<Option<String>, AllocError>,
    writer: &mut W,
) -> Result<(), ProgramFault> {
    if asked.json {
        let why = why?;
        return tell_json(
            alloc,
            writer,
            judged,
            why.as_ref().map_or("", |why| why.as_str()),
        );
    }
    tell(alloc, writer, judged)?;
    if let Some(why) = why? {
        explain(alloc, writer, why.as_str())?;
    }
    if asked.explain {
        if let Some(beginning) = beginning(alloc, judged)? {
            explain(alloc, writer, beginning.as_str())?;
        }
    }
    Ok(())
}

/// Audits a file, and writes the verdict; where it is to be explained, also why it is not legal. The file is read once,
/// as it comes, so it may as well be a pipe.
///
/// # Errors
/// `CannotRead` where the file cannot be read, the fault of a damaged file, `Illegal` where the verdict is not legal,
/// `Write`, `NoMemory`.
pub fn audit(
    rt: &HostRuntime,
    asked: AuditOrder<'_>,
    writer: &mut impl Write,
) -> Result<(), ProgramFault> {
    let file = opened(rt, asked.file)?;
    audit_over(rt.alloc(), asked, file, Progress::new(*rt), writer)
}
