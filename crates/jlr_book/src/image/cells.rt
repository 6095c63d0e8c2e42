//! The cells of an empty machine, made in pieces.
ghost use Rattle.jlr_book.specs.ImageKeeping.{AreEmptyCells};

use jlr_machine::object::Object;
use std::alloc::AllocError;

/// Adds so many cells with nothing in them, but at most as many as the limit leaves.
///
/// # Errors
/// `AllocError` where there is no memory. Some may have been added then.
pub(crate) fn add_cells(
    cells: &mut Vec<Option<Object>>,
    limit: usize,
    more: usize,
) -> Result<(), AllocError>
    requires { AreEmptyCells cells.old limit }
    ensures { AreEmptyCells cells.new limit }
{
    let left = limit - cells.len();
    cells.reserve(left)?;
    for _ in 0..more.min(left) {
        cells.push(None)?;
    }
    Ok(())
}
