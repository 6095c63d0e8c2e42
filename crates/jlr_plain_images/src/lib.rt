//! Whether a machine is well formed, and whether it may be the image at the head of a trace: exactly as the definitions
//! say it, and without memory. Its objects, mutators, lists and actions are tested in `parts`.
#![tactic(auto)]

pub mod calls;
pub mod image;
pub mod parts;
pub mod resources;
pub mod unnamed;
mod works;
