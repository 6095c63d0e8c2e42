//! The layout of a new object.
ghost use Rattle.std.specs.Prelude.{◌≡◌, ◌≤◌};
ghost use Rattle.refheap_c.specs.Layouts.{kind_of_bit, layout_of};

use jlr_types::{FieldKind, Layout};

/// So many fields, of which the bits say which are reference fields, that of field 0 first.
pub(crate) fn layout(fields: u8, references: u8) -> Layout
    requires { fields ≤ 8 }
    ensures { result ≡ layout_of fields references }
{
    let mut layout = Layout::new();
    let mut bits = references;
    for _ in 0..fields {
        layout.push(kind_of(bits));
        bits /= 2;
    }
    layout
}

/// What the lowest bit says.
fn kind_of(bits: u8) -> FieldKind
    ensures { result ≡ kind_of_bit bits }
{
    if bits % 2 == 1 {
        FieldKind::Ref
    } else {
        FieldKind::Int
    }
}
