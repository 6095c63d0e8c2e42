//! Handles of kinds: numbers by which the program names what it holds. Contracts see the number.
ghost use Rattle.std.specs.Prelude.{◌≡◌, ℕ};

use jlr_types::Handle;
use std::marker::Model;

/// A soft, weak or phantom reference.
#[derive(Clone, Copy)]
pub struct Reference(Handle);

impl Model for Reference {
    ghost Value = { ℕ };

    ghost view = { λ a. a.0 };

    ghost inverse = { λ n. record { 0 = n } };
}

impl Reference {
    /// A handle that is one. A call on one that is not is refused `WrongKind`.
    #[inline(always)]
    pub fn of(handle: Handle) -> Self
        ensures { result ≡ handle }
    {
        Reference(handle)
    }

    /// Its handle.
    #[inline(always)]
    pub fn handle(self) -> Handle
        ensures { result ≡ self }
    {
        let Reference(handle) = self;
        handle
    }
}

/// A queue, to which references come.
#[derive(Clone, Copy)]
pub struct Queue(Handle);

impl Model for Queue {
    ghost Value = { ℕ };

    ghost view = { λ a. a.0 };

    ghost inverse = { λ n. record { 0 = n } };
}

impl Queue {
    /// A handle that is one. A call on one that is not is refused `WrongKind`.
    #[inline(always)]
    pub fn of(handle: Handle) -> Self
        ensures { result ≡ handle }
    {
        Queue(handle)
    }

    /// Its handle.
    #[inline(always)]
    pub fn handle(self) -> Handle
        ensures { result ≡ self }
    {
        let Queue(handle) = self;
        handle
    }
}

/// A cleaner, with which actions are registered.
#[derive(Clone, Copy)]
pub struct Cleaner(Handle);

impl Model for Cleaner {
    ghost Value = { ℕ };

    ghost view = { λ a. a.0 };

    ghost inverse = { λ n. record { 0 = n } };
}

impl Cleaner {
    /// A handle that is one. A call on one that is not is refused `WrongKind`.
    #[inline(always)]
    pub fn of(handle: Handle) -> Self
        ensures { result ≡ handle }
    {
        Cleaner(handle)
    }

    /// Its handle.
    #[inline(always)]
    pub fn handle(self) -> Handle
        ensures { result ≡ self }
    {
        let Cleaner(handle) = self;
        handle
    }
}

/// What was registered.
#[derive(Clone, Copy)]
pub struct Cleanable(Handle);

impl Model for Cleanable {
    ghost Value = { ℕ };

    ghost view = { λ a. a.0 };

    ghost inverse = { λ n. record { 0 = n } };
}

impl Cleanable {
    /// A handle that is one. A call on one that is not is refused `WrongKind`.
    #[inline(always)]
    pub fn of(handle: Handle) -> Self
        ensures { result ≡ handle }
    {
        Cleanable(handle)
    }

    /// Its handle.
    #[inline(always)]
    pub fn handle(self) -> Handle
        ensures { result ≡ self }
    {
        let Cleanable(handle) = self;
        handle
    }
}

/// A guard over a token.
#[derive(Clone, Copy)]
pub struct Guard(Handle);

impl Model for Guard {
    ghost Value = { ℕ };

    ghost view = { λ a. a.0 };

    ghost inverse = { λ n. record { 0 = n } };
}

impl Guard {
    /// A handle that is one. A call on one that is not is refused `WrongKind`.
    #[inline(always)]
    pub fn of(handle: Handle) -> Self
        ensures { result ≡ handle }
    {
        Guard(handle)
    }

    /// Its handle.
    #[inline(always)]
    pub fn handle(self) -> Handle
        ensures { result ≡ self }
    {
        let Guard(handle) = self;
        handle
    }
}
