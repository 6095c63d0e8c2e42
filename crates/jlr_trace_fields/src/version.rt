//! The versions of a trace file.

/// A version of a trace file.
#[derive(Clone, Copy, PartialEq, Eq, Debug)]
pub enum Version {
    /// There are no arrays, and a field's number is a byte.
    One,
    /// There are arrays, and a field's number is two bytes.
    Two,
}
