//! What a line that was typed asks for.
ghost use Rattle.std.specs.Prelude.{◌≡◌, take};
ghost use Rattle.jlr_client.specs.Typing.{is_for_client as own, IsOwnWord, IsMeant};

/// What a line that was typed asks for.
#[derive(Clone, Copy, Debug)]
pub enum Typed<'a> {
    /// A line for the server.
    Line(&'a [u8]),
    /// `help`: what may be typed.
    Help,
    /// `help COMMAND`: the page of a command.
    HelpOf(&'a [u8]),
    /// `.save FILE`: the lines that went to the server, as a script.
    Save(&'a [u8]),
    /// `.quit`: the end.
    Quit,
    /// No word of the client.
    Unknown,
}

/// What a line, without its end, asks for. Where it begins with a dot, or its first word is `help`, it is for the
/// client and never goes to the server; every other line goes there as it is.
pub fn meant<'a>(line: &'a [u8]) -> Typed<'a>
    ensures { IsMeant line.now result }
{
    if is_own(line) {
        return own_word(line);
    }
    Typed::Line(line)
}

/// So many bytes of a line, or all where it has fewer.
fn front<'a>(line: &'a [u8], count: usize) -> &'a [u8]
    ensures { result.now ≡ take count line.now }
{
    if count < line.len() {
        return &line[..count];
    }
    line
}

/// Whether a line is for the client.
fn is_own(line: &[u8]) -> bool
    ensures { result ≡ own line.now }
{
    front(line, 1) == b".".as_slice()
        || line == b"help".as_slice()
        || front(line, 5) == b"help ".as_slice()
}

/// What a line that is for the client asks for.
fn own_word<'a>(line: &'a [u8]) -> Typed<'a>
    ensures { IsOwnWord line.now result }
{
    if line == b"help".as_slice() {
        return Typed::Help;
    }
    if line == b".quit".as_slice() {
        return Typed::Quit;
    }
    if let Some(word) = line.strip_prefix(b"help ".as_slice()) {
        return Typed::HelpOf(word);
    }
    if let Some(file) = line.strip_prefix(b".save ".as_slice()) {
        return Typed::Save(file);
    }
    Typed::Unknown
}
