//! The audit of a trace file.
ghost use Rattle.std.specs.Prelude.{◌≡◌, IfOk};
ghost use Rattle.jlr_audit.specs.declared.verdict.Verdict.{Verdict as VerdictOf};
ghost use Rattle.jlr_audit.specs.Verdicts.{IsLegalFront, IsVerdict, IsFileVerdict};
ghost use Rattle.jlr_machine.specs.WellFormed.{IsImage};

use crate::verdict::{Verdict, legal_front};
use crate::watch::{Unwatched, Watch};
use jlr_machine::copies::copy_machine;
use jlr_machine::entry::Entry;
use jlr_machine::machine::Machine;
use jlr_plain_images::image::image_plain;
use jlr_trace::file::TraceFile;
use std::alloc::{AllocError, Global};

/// How many of the first entries are legal, one after the other, from the image on.
fn legal_count<W: Watch>(
    alloc: Global,
    image: &Machine,
    entries: &[Entry],
    watch: &mut W,
) -> Result<usize, AllocError>
    requires { IsImage image.now }
    ensures { IfOk result (λ n. IsLegalFront image.now entries.now n) }
{
    let machine = copy_machine(alloc, image)?;
    legal_front(alloc, machine, entries, watch)
}

/// The verdict on a machine and entries that go on from it.
fn history_verdict<W: Watch>(
    alloc: Global,
    image: &Machine,
    entries: &[Entry],
    watch: &mut W,
) -> Result<Verdict, AllocError>
    ensures verdict { IfOk result (λ v. IsVerdict image.now entries.now v) }
    ensures only { IfOk result (λ v. (w : VerdictOf) → IsVerdict image.now entries.now w → w ≡ v) }
{
    let formed = image_plain(image);
    if !formed {
        return Ok(Verdict::Illegal(0));
    }
    let legal = legal_count(alloc, image, entries, watch)?;
    if legal == entries.len() {
        return Ok(Verdict::Legal);
    }
    Ok(Verdict::Illegal(legal as u64 + 1))
}

/// The audit of a trace file that nobody watches.
///
/// # Errors
/// `AllocError` where there is no memory.
pub fn audit(alloc: Global, file: &TraceFile) -> Result<Verdict, AllocError>
    ensures verdict { IfOk result (λ v. IsFileVerdict file.now v) }
    // And no other verdict holds.
    ensures only { IfOk result (λ v. (w : VerdictOf) → IsFileVerdict file.now w → w ≡ v) }
{
    audit_watched(alloc, file, &mut Unwatched)
}

/// Whether the entries of a trace file are a run from its image. An image with objects in slots that are no cells is
/// not well formed. It shares nothing with the heap: it is made of the plain program.
///
/// # Errors
/// `AllocError` where there is no memory.
pub(crate) fn audit_watched<W: Watch>(
    alloc: Global,
    file: &TraceFile,
    watch: &mut W,
) -> Result<Verdict, AllocError>
    ensures verdict { IfOk result (λ v. IsFileVerdict file.now v) }
    ensures only { IfOk result (λ v. (w : VerdictOf) → IsFileVerdict file.now w → w ≡ v) }
{
    if !file.strays.as_slice().is_empty() {
        return Ok(Verdict::Illegal(0));
    }
    history_verdict(alloc, &file.image, file.entries.as_slice(), watch)
}
