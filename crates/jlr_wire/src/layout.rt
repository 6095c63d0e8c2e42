//! The layouts of new objects.
ghost use Rattle.jlr_types.specs.declared.FieldKind.{FieldKind};
ghost use Rattle.std.specs.Prelude.{List, ◌≡◌, ◌≤◌, IfSome, IfNone, length};
ghost use Rattle.jlr_wire.specs.Reading.{layout_of};
ghost use Rattle.jlr_wire.specs.Commands.{layout as layout_text};

use jlr_types::{FieldKind, Layout};

/// The most fields of an object.
const FIELD_COUNT: usize = 8;

/// The layout that the text spells, `-` for no field or one letter `r` or `i` for each of up to eight,
/// or `None`.
pub fn layout(text: &[u8]) -> Option<Layout>
    ensures { result ≡ layout_of text.now }
{
    parse_layout(text)
}

/// The layout of at most eight fields whose text this is, or `None`.
fn parse_layout(text: &[u8]) -> Option<Layout>
    ensures found { IfSome result (λ kinds. (length kinds ≤ 8) × (text.now ≡ layout_text kinds)) }
    ensures none { IfNone result ((kinds : List FieldKind) → length kinds ≤ 8 → text.now ≡ layout_text kinds → ⊥) }
{
    let mut layout = Layout::new();
    if text == b"-".as_slice() {
        return Some(layout);
    }
    if text.is_empty() {
        return None;
    }
    for letter in text {
        let kind = match *letter {
            b'r' => FieldKind::Ref,
            b'i' => FieldKind::Int,
            _ => return None,
        };
        if layout.len() >= FIELD_COUNT {
            return None;
        }
        layout.push(kind);
    }
    Some(layout)
}
