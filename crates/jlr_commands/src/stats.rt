//! The figures of a saved history: `refheap stats FILE`.
ghost use Rattle.std.specs.Prelude.{IfErr, IfOk, option_map};
ghost use Rattle.jlr_trace.specs.Files.{file_read};
ghost use Rattle.jlr_trace.specs.Streams.{FailsOn};

use crate::audit::outcome_of;
use crate::history_file::{fault_of, opened};
use crate::text::write_text;
use jlr_audit::stats::figures::{Figures, Judged, figures_of};
use jlr_audit::stats::json::json_of;
use jlr_audit::stats::table::table_of;
use jlr_audit::verdict::Verdict;
use jlr_command_line::arguments::StatsOrder;
use jlr_command_line::fault::ProgramFault;
use jlr_trace::streamed::streamed_trace;
use jlr_trace::window::StreamFault;
use std::alloc::{AllocError, Global};
use std::io::{Read, Write};

/// The figures in words.
fn told(alloc: Global, figures: &Figures, is_json: bool) -> Result<String, AllocError> {
    if is_json {
        json_of(alloc, figures)
    } else {
        table_of(alloc, figures)
    }
}

/// Reads a history as it comes, and takes its figures.
fn figures<R: Read + Drop>(alloc: Global, reader: R) -> Result<Judged, StreamFault>
    ensures { IfErr result (λ f. FailsOn f (option_map file_read (R.remaining reader))) }
{
    match streamed_trace(alloc, reader) {
        Ok(trace) => figures_of(alloc, trace),
        Err(fault) => Err(fault),
    }
}

/// Reads a file, and tells its figures, and the verdict.
fn read(rt: &HostRuntime, asked: StatsOrder<'_>) -> Result<(Verdict, String), ProgramFault> {
    let alloc = rt.alloc();
    let file = opened(rt, asked.file)?;
    match figures(alloc, file) {
        Ok(judged) => {
            let Judged { verdict, figures } = judged;
            let text = told(alloc, &figures, asked.json);
            drop(figures);
            Ok((verdict, text?))
        }
        Err(fault) => Err(fault_of(alloc, asked.file, fault)),
    }
}

/// Writes the figures of a file, up to the first entry that is not legal.
///
/// # Errors
/// As for an audit: `CannotRead`, the fault of a damaged file, `Illegal`, `Write`, `NoMemory`.
pub fn stats(
    rt: &HostRuntime,
    asked: StatsOrder<'_>,
    writer: &mut impl Write,
) -> Result<(), ProgramFault> {
    let (verdict, text) = read(rt, asked)?;
    write_text(writer, text.as_str())?;
    outcome_of(verdict)
}
