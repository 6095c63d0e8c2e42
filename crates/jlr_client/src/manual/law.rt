//! The law of the forms. Its contract is the law, and its body is empty.
ghost use Rattle.jlr_client.specs.Forms.{FormsAreCommands};

/// A line is of one of the forms exactly where the protocol reads it as a command.
pub fn the_forms_are_the_commands()
    ensures { FormsAreCommands }
{}
