//! What a take-up hands out.
use jlr_types::{ActionNo, Work};

/// A cleaning action that was taken up. Its taker does the work and tells the outcome by `Cleaner::finish`.
#[derive(Drop)]
pub struct Job<R> {
    /// Its number.
    pub action: ActionNo,
    /// What is to be done.
    pub work: Work,
    /// The file or socket to be finished, where that is the work.
    pub resource: Option<R>,
}
