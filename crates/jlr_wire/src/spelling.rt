//! Laws of lines and the commands that they spell. Each function's contract is the law, and its body is empty.
ghost use Rattle.jlr_wire.specs.Spelling.{CommandsHaveOneSpelling, LinesSpellOneCommand};

/// A command has one line, but for the case of the hexadecimal digits of a write.
pub fn commands_have_one_spelling()
    ensures { CommandsHaveOneSpelling }
{}

/// A line is at most one command.
pub fn lines_spell_one_command()
    ensures { LinesSpellOneCommand }
{}
