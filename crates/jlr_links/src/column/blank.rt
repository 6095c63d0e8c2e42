//! Values that stand where nothing was written.
ghost use Rattle.std.specs.Prelude.{◌≡◌, None};

/// A type with a value that stands where nothing was written.
pub trait Blank {
    // The value that `blank` returns.
    ghost nothing: { Self };

    /// The value that stands where nothing was written.
    fn blank() -> Self
        ensures { result ≡ nothing };
}

impl Blank for u32 {
    ghost nothing = { 0 };

    fn blank() -> u32 {
        0
    }
}

impl<T> Blank for Option<T> {
    ghost nothing = { None };

    fn blank() -> Option<T> {
        None
    }
}
