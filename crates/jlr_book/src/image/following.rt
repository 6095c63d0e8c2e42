//! A machine that follows the records of entries.
ghost use Rattle.std.specs.Prelude.{◌≡◌, ◌+◌, ◌<◌, length, drop, OnOk, OnErr};
ghost use Rattle.jlr_book.specs.Led.{led, LeadsOn};

use jlr_machine::ask::Ask;
use jlr_machine::machine::Machine;
use jlr_plain::follow::follow_plain;
use jlr_plain::record::Record;
use std::alloc::{AllocError, Global};

/// Follows the record at a place.
///
/// # Errors
/// `AllocError` where there is no memory. The machine is then as it was.
pub(crate) fn follow_at(
    alloc: Global,
    machine: &mut Machine,
    records: &[Record],
    place: usize,
) -> Result<(), AllocError>
    requires place { place < length records.now }
    requires leads { LeadsOn machine.old (drop place records.now) }
    ensures same { OnOk result (led machine.new (drop (place + 1) records.now)
        ≡ led machine.old (drop place records.now)) }
    ensures leads { OnOk result (LeadsOn machine.new (drop (place + 1) records.now)) }
    ensures err { OnErr result (machine.new ≡ machine.old) }
{
    follow_plain(alloc, machine, &records[place])
}

/// Follows all records.
///
/// # Errors
/// `AllocError` where there is no memory. Some may have been followed then.
pub(crate) fn follow_all(
    alloc: Global,
    machine: &mut Machine,
    records: &[Record],
) -> Result<(), AllocError>
    requires { LeadsOn machine.old records.now }
    ensures { OnOk result (machine.new ≡ led machine.old records.now) }
{
    for place in 0..records.len() {
        follow_at(alloc, machine, records, place)?;
    }
    Ok(())
}

/// Whether one of the entries made an array.
pub(crate) fn make_array(records: &[Record]) -> bool {
    for record in records {
        if matches!(record.ask, Ask::Array { .. }) {
            return true;
        }
    }
    false
}
