//! What stands behind the word of a command.
ghost use Rattle.std.specs.Prelude.{◌≡◌};
ghost use Rattle.jlr_client.specs.Rows.{letter_of};

/// What an operand of a command is.
#[derive(Clone, Copy, Debug)]
pub enum Operand {
    /// `L`: - for no fields, or 1 to 8 letters: r a reference field, i an integer field.
    Layout,
    /// `n`: how many elements, 1 to 4096.
    Length,
    /// `h`: a handle, 0 to 255; 0 is null, 251 to 255 are never in use.
    Object,
    /// `a`: a handle.
    Left,
    /// `b`: a handle.
    Right,
    /// `v`: a handle.
    Value,
    /// `r`: the handle of a reference.
    Reference,
    /// `q`: the handle of a queue.
    Queue,
    /// `c`: the handle of a cleaner.
    Cleaner,
    /// `c`: the handle of a cleanable.
    Cleanable,
    /// `k`: the number of a field or element, 0 to 4095.
    Field,
    /// `integer`: -9223372036854775808 to 9223372036854775807.
    Integer,
    /// `note`: 0 to 4294967295.
    Note,
    /// `m`: r for reading, w for writing.
    Mode,
    /// `path`: 1 to 255 visible characters of ASCII, without the space.
    Path,
    /// `count`: 1 to 200.
    Count,
    /// `bytes`: 2 to 400 hexadecimal digits, an even number: 1 to 200 bytes.
    Bytes,
    /// `name`: 1 to 32 bytes, each a small letter, a digit or an underscore.
    Name,
}

impl Operand {
    /// How the manual writes it.
    pub fn letter(self) -> &'static str
        ensures { result.now ≡ letter_of self }
    {
        match self {
            Operand::Layout => "L",
            Operand::Length => "n",
            Operand::Object => "h",
            Operand::Left => "a",
            Operand::Right => "b",
            Operand::Value => "v",
            Operand::Reference => "r",
            Operand::Queue => "q",
            Operand::Cleaner => "c",
            Operand::Cleanable => "c",
            Operand::Field => "k",
            Operand::Integer => "integer",
            Operand::Note => "note",
            Operand::Mode => "m",
            Operand::Path => "path",
            Operand::Count => "count",
            Operand::Bytes => "bytes",
            Operand::Name => "name",
        }
    }

    /// What it may be.
    pub fn range(self) -> &'static str {
        match self {
            Operand::Layout =>
                "- for no fields, or 1 to 8 letters: r a reference field, i an integer field",
            Operand::Length => "how many elements, 1 to 4096",
            Operand::Object => "a handle, 0 to 255; 0 is null, 251 to 255 are never in use",
            Operand::Left => "a handle",
            Operand::Right => "a handle",
            Operand::Value => "a handle",
            Operand::Reference => "the handle of a reference",
            Operand::Queue => "the handle of a queue",
            Operand::Cleaner => "the handle of a cleaner",
            Operand::Cleanable => "the handle of a cleanable",
            Operand::Field => "the number of a field or element, 0 to 4095",
            Operand::Integer => "-9223372036854775808 to 9223372036854775807",
            Operand::Note => "0 to 4294967295",
            Operand::Mode => "r for reading, w for writing",
            Operand::Path => "1 to 255 visible characters of ASCII, without the space",
            Operand::Count => "1 to 200",
            Operand::Bytes => "2 to 400 hexadecimal digits, an even number: 1 to 200 bytes",
            Operand::Name => "1 to 32 bytes, each a small letter, a digit or an underscore",
        }
    }
}

/// The operands that the table explains. A letter of a handle has one line for each thing that it may name.
pub const OPERANDS: [Operand; 18] = [
    Operand::Layout,
    Operand::Length,
    Operand::Object,
    Operand::Left,
    Operand::Right,
    Operand::Value,
    Operand::Reference,
    Operand::Queue,
    Operand::Cleaner,
    Operand::Cleanable,
    Operand::Field,
    Operand::Integer,
    Operand::Note,
    Operand::Mode,
    Operand::Path,
    Operand::Count,
    Operand::Bytes,
    Operand::Name,
];
