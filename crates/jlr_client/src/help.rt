//! What the client says of itself.
use crate::manual::form::forms;
use crate::manual::table::line_of;
use std::alloc::{AllocError, Global};

/// What may be typed at a client.
const WORDS: &str =
    "Each line goes to the server as it is typed, but for the words of the client itself:
  help            tells what may be typed
  help COMMAND    tells what a command does, as `help weak`
  .save FILE      saves the lines that went to the server, as a script
  .quit           ends, as the end of the input does
Commands:
";

/// How many commands stand in a line.
const IN_A_LINE: usize = 5;

/// What may be typed: the words of the client, and the commands with their operands.
pub fn help(alloc: Global) -> Result<String, AllocError> {
    let mut text = String::new(alloc);
    text.push_str(WORDS)?;
    let forms = forms();
    for (at, form) in forms.iter().enumerate() {
        let line = line_of(alloc, *form)?;
        let is_last = at % IN_A_LINE == IN_A_LINE - 1 || at + 1 == forms.len();
        if is_last {
            text.push_str(format!(in alloc; "  {line}\n")?.as_str())?;
        } else {
            text.push_str(format!(in alloc; "  {line:<21}")?.as_str())?;
        }
    }
    Ok(text)
}
