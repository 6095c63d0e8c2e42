//! A list of bytes cut at the first byte of a kind: at the end of a line, or of a field.
ghost use Rattle.std.specs.Prelude.{◌≡◌, ◌∷◌, ◌++◌, length, ◌+◌, MatchOption};
ghost use Rattle.jlr_wire.specs.Lines.{IsWithout};

use bstr::ByteSlice;

/// What stands before the first such byte, and what stands after it; `None` where there is no
/// such byte. It is inlined: lines are short.
#[inline(always)]
pub(crate) fn cut_at<'a>(bytes: &'a [u8], byte: u8) -> Option<(&'a [u8], &'a [u8])>
    ensures cut { MatchOption result (IsWithout byte bytes.now)
        (λ cut. IsWithout byte cut.0.now × (bytes.now ≡ cut.0.now ++ byte ∷ cut.1.now)) }
    ensures room { MatchOption result (Unit {0}) (λ cut. length cut.0.now + length cut.1.now + 1 ≡ length bytes.now) }
{
    let at = bytes.find_byte(byte)?;
    Some((&bytes[..at], &bytes[at + 1..]))
}

/// The same of the fields of a line, at its first space. It looks at one byte after the other: fields are short.
#[inline(always)]
pub(crate) fn cut_field<'a>(line: &'a [u8]) -> Option<(&'a [u8], &'a [u8])>
    ensures { MatchOption result (IsWithout 32 line.now)
        (λ cut. IsWithout 32 cut.0.now × (line.now ≡ cut.0.now ++ 32 ∷ cut.1.now)) }
{
    for at in 0..line.len() {
        if line[at] == b' ' {
            return Some((&line[..at], &line[at + 1..]));
        }
    }
    None
}
