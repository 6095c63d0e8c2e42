//! What asks name, what the machine holds under it, and which asks are refused: computed as the definitions say it,
//! without memory. `answers` has what an ask is answered, `changes` what it leaves.
#![tactic(auto)]

pub mod answers;
pub mod changes;
pub mod given;
pub mod lookups;
pub mod operands;
pub mod refusals;
