//! Lists of rows.
use jlr_types::Limits;
use std::alloc::AllocError;

pub(super) const TITLE: &str = "== ";

/// Whether a line is a row, and no comment and not empty.
pub(super) fn is_row(line: &str) -> bool {
    !line.is_empty() && !line.starts_with("-- ")
}

/// The limits of each list's heap.
pub(super) fn limits() -> Result<Limits, AllocError> {
    match Limits::checked(16, 1, 1, 0, 64, 1) {
        Ok(limits) => Ok(limits),
        Err(_) => Err(AllocError),
    }
}
