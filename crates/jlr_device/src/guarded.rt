//! The calls of devices and resources for a caller that does not know whether the count of failures still fits: where
//! it is at its last value, 2^64 - 1, no call is made, and the answer is `Other`.
ghost use Rattle.std.specs.Prelude.{◌≡◌, ◌+◌, ◌<◌, ◌≤◌, ◌⊎◌, Err, length, IfOk};
ghost use Rattle.jlr_types.specs.declared.Fault.TheVariants as fault;
ghost use Rattle.jlr_device.specs.Failures.{Counts, CountsOneMore, IsHighest};

use crate::device::{Device, Mode};
use crate::resource::{Finished, Resource};
use jlr_types::Fault;

/// Opens a file.
pub fn guarded_open<D: Device>(device: &mut D, mode: Mode, path: &str) -> Result<D::Res, Fault>
    ensures fresh { IfOk result (λ resource. D.Res.handling.count resource ≡ 0) }
    ensures either { CountsOneMore (D.count device.old) ⊎ IsHighest (D.count device.old) }
    ensures counted { CountsOneMore (D.count device.old) → Counts (D.count device.old) result (D.count device.new) }
    ensures told { CountsOneMore (D.count device.old) → D.may_open device.old mode path.now result device.new }
    ensures uncalled { IsHighest (D.count device.old) → (result ≡ Err fault.Other) × (device.new ≡ device.old) }
{
    if device.failures() == u64::MAX {
        return Err(Fault::Other);
    }
    device.open(mode, path)
}

/// Joins a socket.
pub fn guarded_connect<D: Device>(device: &mut D, path: &str) -> Result<D::Res, Fault>
    ensures fresh { IfOk result (λ resource. D.Res.handling.count resource ≡ 0) }
    ensures either { CountsOneMore (D.count device.old) ⊎ IsHighest (D.count device.old) }
    ensures counted { CountsOneMore (D.count device.old) → Counts (D.count device.old) result (D.count device.new) }
    ensures told { CountsOneMore (D.count device.old) → D.may_connect device.old path.now result device.new }
    ensures uncalled { IsHighest (D.count device.old) → (result ≡ Err fault.Other) × (device.new ≡ device.old) }
{
    if device.failures() == u64::MAX {
        return Err(Fault::Other);
    }
    device.connect(path)
}

/// Reads bytes to the front of `buf`, and answers how many; 0 at the end.
pub fn guarded_read<D: Device>(
    device: &D,
    resource: &mut D::Res,
    buf: &mut [u8],
) -> Result<usize, Fault>
    ensures bound { IfOk result (λ n. n ≤ length buf.old) }
    ensures either { CountsOneMore (D.Res.handling.count resource.old) ⊎ IsHighest (D.Res.handling.count resource.old) }
    ensures counted { CountsOneMore (D.Res.handling.count resource.old)
        → Counts (D.Res.handling.count resource.old) result (D.Res.handling.count resource.new) }
    ensures told { CountsOneMore (D.Res.handling.count resource.old)
        → D.Res.handling.reads resource.old buf.old result buf.new resource.new }
    ensures uncalled { IsHighest (D.Res.handling.count resource.old) → (result ≡ Err fault.Other) × (buf.new ≡ buf.old)
        × (resource.new ≡ resource.old) }
{
    if resource.failures() == u64::MAX {
        return Err(Fault::Other);
    }
    device.read(resource, buf)
}

/// Writes bytes of the front of `bytes`, and answers how many, which may be fewer than there are.
pub fn guarded_write<D: Device>(
    device: &D,
    resource: &mut D::Res,
    bytes: &[u8],
) -> Result<usize, Fault>
    ensures bound { IfOk result (λ n. n ≤ length bytes.now) }
    ensures either { CountsOneMore (D.Res.handling.count resource.old) ⊎ IsHighest (D.Res.handling.count resource.old) }
    ensures counted { CountsOneMore (D.Res.handling.count resource.old)
        → Counts (D.Res.handling.count resource.old) result (D.Res.handling.count resource.new) }
    ensures told { CountsOneMore (D.Res.handling.count resource.old)
        → D.Res.handling.writes resource.old bytes.now result resource.new }
    ensures uncalled { IsHighest (D.Res.handling.count resource.old) → (result ≡ Err fault.Other)
        × (resource.new ≡ resource.old) }
{
    if resource.failures() == u64::MAX {
        return Err(Fault::Other);
    }
    device.write(resource, bytes)
}

/// Ends a resource. Where its count is at its last value it is dropped without its `finish`.
pub fn guarded_finish<R: Resource + Drop>(resource: R) -> Finished
    ensures either { CountsOneMore (R.handling.count resource) ⊎ IsHighest (R.handling.count resource) }
    ensures counted { CountsOneMore (R.handling.count resource)
        → Counts (R.handling.count resource) result.outcome result.failures }
    ensures told { CountsOneMore (R.handling.count resource) → R.handling.finishes resource result }
    ensures uncalled { IsHighest (R.handling.count resource) → (result.outcome ≡ Err fault.Other)
        × (result.failures ≡ R.handling.count resource) }
{
    let failures = resource.failures();
    if failures == u64::MAX {
        return Finished {
            outcome: Err(Fault::Other),
            failures,
        };
    }
    resource.finish()
}
