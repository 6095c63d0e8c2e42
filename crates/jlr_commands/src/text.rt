//! A text that is written whole.
ghost use Rattle.std.specs.Prelude.{OnOk};
ghost use Rattle.std.specs.Io.KnownBytes.{Appends};

use jlr_command_line::fault::ProgramFault;
use std::io::Write;

/// Writes a text, and flushes.
///
/// # Errors
/// `Write`.
pub(crate) fn write_text<W: Write>(writer: &mut W, text: &str) -> Result<(), ProgramFault>
    ensures { OnOk result (Appends (W.contents writer.old) (W.contents writer.new) text.now) }
{
    if writer.write_all(text.as_bytes()).is_err() || writer.flush().is_err() {
        return Err(ProgramFault::Write);
    }
    Ok(())
}
