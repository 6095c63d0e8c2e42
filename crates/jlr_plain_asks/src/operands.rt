//! What an ask names: its handles, its field and its name.
ghost use Rattle.std.specs.Prelude.{◌≡◌, option_map, option_copied, true, false};
ghost use Rattle.jlr_types.specs.declared.FieldKind.TheVariants.{Int, Ref};
ghost use Rattle.jlr_machine.specs.Refusals.{operands, field_asked, name_asked};
ghost use Rattle.jlr_plain_asks.specs.Fits.{operands_in};

use jlr_machine::ask::Ask;
use jlr_machine::text::Name;
use jlr_types::{FieldKind, FieldNo, Handle};

/// Which objects fit an operand.
#[derive(Clone, Copy)]
pub enum Fit {
    Any,
    Plain,
    Record,
    Reference,
    Queue,
    Cleaner,
    Cleanable,
    Guard,
}

/// A handle that an ask names.
#[derive(Clone, Copy)]
pub struct Named {
    pub handle: Handle,
    pub may_be_null: bool,
    pub fit: Fit,
}

/// The handles that an ask names, in its order.
#[derive(Clone, Copy)]
pub enum Operands {
    Nothing,
    One(Named),
    Two(Named, Named),
}

/// A field that an ask names.
#[derive(Clone, Copy)]
pub struct FieldNamed {
    pub object: Handle,
    pub field: FieldNo,
    pub kind: FieldKind,
}

fn object(handle: Handle, fit: Fit) -> Named
    ensures { result ≡ record { handle = handle; may_be_null = false; fit = fit } }
{
    Named {
        handle,
        may_be_null: false,
        fit,
    }
}

fn object_or_null(handle: Handle, fit: Fit) -> Named
    ensures { result ≡ record { handle = handle; may_be_null = true; fit = fit } }
{
    Named {
        handle,
        may_be_null: true,
        fit,
    }
}

/// The handles that an ask names.
pub fn operands_of(ask: &Ask) -> Operands
    ensures { operands_in result ≡ operands ask.now }
{
    match ask {
        Ask::Put {
            object: x,
            value,
            ..
        } => { Operands::Two(object(*x, Fit::Plain), object_or_null(*value, Fit::Any)) }
        Ask::Get { object: x, .. } => Operands::One(object(*x, Fit::Plain)),
        Ask::SetInt { object: x, .. } => Operands::One(object(*x, Fit::Record)),
        Ask::Int { object: x, .. } => Operands::One(object(*x, Fit::Record)),
        Ask::Dup { object: x, .. } => Operands::One(object(*x, Fit::Any)),
        Ask::Drop { object: x, .. } => Operands::One(object(*x, Fit::Any)),
        Ask::Same { left, right, .. } => {
            Operands::Two(
                object_or_null(*left, Fit::Any),
                object_or_null(*right, Fit::Any),
            )
        }
        Ask::MakeRef {
            referent,
            queue,
            ..
        } => {
            Operands::Two(
                object(*referent, Fit::Any),
                object_or_null(*queue, Fit::Queue),
            )
        }
        Ask::Deref { reference, .. } => Operands::One(object(*reference, Fit::Reference)),
        Ask::Refers {
            reference,
            object: x,
            ..
        } => {
            Operands::Two(
                object(*reference, Fit::Reference),
                object_or_null(*x, Fit::Any),
            )
        }
        Ask::Clear { reference, .. } => Operands::One(object(*reference, Fit::Reference)),
        Ask::Enqueue { reference, .. } => Operands::One(object(*reference, Fit::Reference)),
        Ask::Enqueued { reference, .. } => Operands::One(object(*reference, Fit::Reference)),
        Ask::Poll { queue, .. } => Operands::One(object(*queue, Fit::Queue)),
        Ask::Remove { queue, .. } => Operands::One(object(*queue, Fit::Queue)),
        Ask::Register {
            cleaner,
            object: x,
            ..
        } => { Operands::Two(object(*cleaner, Fit::Cleaner), object(*x, Fit::Any)) }
        Ask::Clean { cleanable, .. } => Operands::One(object(*cleanable, Fit::Cleanable)),
        Ask::CheckOut { guard, .. } => Operands::One(object(*guard, Fit::Guard)),
        Ask::Close { guard, .. } => Operands::One(object(*guard, Fit::Guard)),
        Ask::Bind { object: x, .. } => Operands::One(object(*x, Fit::Any)),
        _ => Operands::Nothing,
    }
}

/// The field that an ask names.
pub(crate) fn field_of_ask(ask: &Ask) -> Option<FieldNamed>
    ensures { option_map (λ x. (x.object, x.field, x.kind)) result ≡ field_asked ask.now }
{
    match ask {
        Ask::Put { object, field, .. } => Some(ref_field(*object, *field)),
        Ask::Get { object, field, .. } => Some(ref_field(*object, *field)),
        Ask::SetInt { object, field, .. } => Some(int_field(*object, *field)),
        Ask::Int { object, field, .. } => Some(int_field(*object, *field)),
        _ => None,
    }
}

fn ref_field(object: Handle, field: FieldNo) -> FieldNamed
    ensures { result ≡ record { object = object; field = field; kind = Ref } }
{
    FieldNamed {
        object,
        field,
        kind: FieldKind::Ref,
    }
}

fn int_field(object: Handle, field: FieldNo) -> FieldNamed
    ensures { result ≡ record { object = object; field = field; kind = Int } }
{
    FieldNamed {
        object,
        field,
        kind: FieldKind::Int,
    }
}

/// The name that an ask is about.
pub fn name_of(ask: &Ask) -> Option<&Name>
    ensures { option_copied result ≡ name_asked ask.now }
{
    match ask {
        Ask::Bind { name, .. } => Some(name),
        Ask::Find { name, .. } => Some(name),
        Ask::Unbind { name, .. } => Some(name),
        _ => None,
    }
}
