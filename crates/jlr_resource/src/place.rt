//! What the table keeps of one resource.
ghost use Rattle.std.specs.Prelude.{◌≡◌};
ghost use Rattle.jlr_resource.specs.Resources.{state_of};

use jlr_machine::machine::ResourceState;
use jlr_types::ActionNo;

/// Where a resource is, and itself where it lies here.
#[derive(Drop)]
pub(crate) enum Kept<R> {
    Opening,
    Idle(R),
    Out,
    Closing,
}

/// A resource that has not ended, and its cleaning action.
#[derive(Drop)]
pub(crate) struct Place<R> {
    pub(crate) action: ActionNo,
    pub(crate) kept: Kept<R>,
}

impl<R> Kept<R> {
    pub(crate) fn state(&self) -> ResourceState
        ensures { result ≡ state_of self.now }
    {
        match self {
            Kept::Opening => ResourceState::Opening,
            Kept::Idle(_) => ResourceState::Idle,
            Kept::Out => ResourceState::Out,
            Kept::Closing => ResourceState::Closing,
        }
    }
}
