//! Layouts: a count, and the letters r and i.
ghost use Rattle.std.specs.Prelude.{◌≡◌, ◌≤◌, ◌++◌, OnOk, slice_get};
ghost use Rattle.std.specs.List.{flat_map};
ghost use Rattle.jlr_trace_fields.specs.Reading.{Reads};
ghost use Rattle.jlr_trace_fields.specs.Items.{items_at};
ghost use Rattle.jlr_trace_entries.specs.Asks.{kind_read, layout_read, spelled_kind, spelled_kind_at, spelled_layout};

use jlr_trace_fields::cursor::{take_u8, take_within};
use jlr_trace_fields::fault::{Fault, ReadError};
use jlr_trace_fields::number::put_u8;
use jlr_types::{FieldKind, Layout};
use std::alloc::AllocError;

#[tactic(auto, unfolding(crate::specs::Asks::kind_read))]
fn kind_at(bytes: &mut &[u8]) -> Result<FieldKind, ReadError>
    ensures { Reads (λ x. x) result bytes.new.now (kind_read bytes.old.now) }
{
    let letter = take_u8(bytes)?;
    if letter == b'r' {
        return Ok(FieldKind::Ref);
    }
    if letter == b'i' {
        return Ok(FieldKind::Int);
    }
    Err(ReadError::Fault(Fault::Range))
}

fn kinds_at(count: u8, bytes: &mut &[u8]) -> Result<Layout, ReadError>
    requires { count ≤ 8 }
    ensures { Reads (λ x. x) result bytes.new.now (items_at kind_read count bytes.old.now) }
{
    let mut layout = Layout::new();
    for _ in 0..count {
        let kind = kind_at(bytes)?;
        layout.push(kind);
    }
    Ok(layout)
}

/// A layout of at most eight fields.
#[tactic(auto, unfolding(crate::specs::Asks::layout_read))]
pub(crate) fn layout_at(bytes: &mut &[u8]) -> Result<Layout, ReadError>
    ensures { Reads (λ x. x) result bytes.new.now (layout_read bytes.old.now) }
{
    let count = take_within(0, 8, bytes)?;
    kinds_at(count, bytes)
}

fn put_kind(out: &mut Vec<u8>, kind: FieldKind) -> Result<(), AllocError>
    ensures { OnOk result (out.new.items ≡ out.old.items ++ spelled_kind kind) }
{
    match kind {
        FieldKind::Ref => put_u8(out, b'r'),
        FieldKind::Int => put_u8(out, b'i'),
    }
}

fn put_kind_at(out: &mut Vec<u8>, layout: &Layout, field: usize) -> Result<(), AllocError>
    ensures { OnOk result (out.new.items ≡ out.old.items ++ spelled_kind_at (slice_get layout.now field)) }
{
    match layout.get(field) {
        Some(kind) => put_kind(out, kind),
        None => Ok(()),
    }
}

fn put_kinds(out: &mut Vec<u8>, layout: &Layout) -> Result<(), AllocError>
    ensures { OnOk result (out.new.items ≡ out.old.items ++ flat_map spelled_kind layout.now) }
{
    for field in 0..layout.len() {
        put_kind_at(out, layout, field)?;
    }
    Ok(())
}

/// Writes a layout.
pub(crate) fn put_layout(out: &mut Vec<u8>, layout: &Layout) -> Result<(), AllocError>
    ensures { OnOk result (out.new.items ≡ out.old.items ++ spelled_layout layout.now) }
{
    put_u8(out, layout.len() as u8)?;
    put_kinds(out, layout)
}
