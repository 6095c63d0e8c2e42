//! The paths of files and sockets.
ghost use Rattle.std.specs.Prelude.{◌≡◌};
ghost use Rattle.std.specs.List.{list_all};
ghost use Rattle.std.specs.Char.{is_ascii_graphic};
ghost use Rattle.jlr_wire.specs.Fields.{path_of};

use std::marker::Model;

/// The most bytes of a path.
const PATH_LIMIT: usize = 255;

/// A path of 1 to 255 bytes, each of them a visible character of ASCII and no space: where it stands in its line.
#[derive(Drop)]
pub struct Path<'a> {
    text: &'a [u8],
}

impl<'a> Model for Path<'a> {
    ghost use Rattle.std.specs.Prelude.{List, ℕ};
    ghost use Rattle.jlr_wire.specs.Texts.{IsPathText};

    ghost Value = { List ℕ };

    ghost view = { λ a. a.text.now };

    ghost invariant = { λ a. IsPathText a.text.now };
}

impl<'a> Path<'a> {
    /// The path that the text spells, or `None`.
    #[tactic(auto, unfolding(crate::specs::Fields::word_of))]
    pub(crate) fn parse(text: &'a [u8]) -> Option<Path<'a>>
        ensures { result ≡ path_of text.now }
    {
        if text.is_empty() || text.len() > PATH_LIMIT || !has_path_bytes(text) {
            return None;
        }
        Some(Path { text })
    }

    /// The bytes, as a text.
    pub fn as_str(&self) -> &str
        ensures { result.now ≡ self.now }
    {
        str::from_utf8(self.text).unwrap()
    }
}

/// Whether each byte may stand in a path.
fn has_path_bytes(text: &[u8]) -> bool
    ensures { result ≡ list_all is_ascii_graphic text.now }
{
    text.iter().all(|byte| byte.is_ascii_graphic())
}
