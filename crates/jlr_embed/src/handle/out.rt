//! What is told through an out pointer, where it is more than one number.

/// A cleaning action that was taken up.
#[repr(C)]
#[derive(Clone, Copy)]
pub struct Taken {
    /// Its number, by which its end is told.
    pub action: u64,
    /// The token that is given back, or the note that was registered.
    pub value: u64,
    /// Whether it is a token.
    pub is_token: bool,
}

/// How many objects and resources there are, and what became of the cleaning actions.
#[repr(C)]
#[derive(Clone, Copy)]
pub struct Counts {
    /// Objects.
    pub objects: u64,
    /// Resources: tokens that were adopted and whose jobs have not ended, and rooms that were prepared.
    pub resources: u64,
    /// Cleaning actions that were taken up.
    pub taken: u64,
    /// Those that ended well.
    pub ok: u64,
    /// Those that failed.
    pub failed: u64,
}

/// A cleaning action that failed.
#[repr(C)]
#[derive(Clone, Copy)]
pub struct Failed {
    /// Its number.
    pub action: u64,
    /// The fault, 1 to 3.
    pub fault: u32,
}
