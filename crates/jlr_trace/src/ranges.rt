//! What the types of machines and of entries say of the numbers in them, by which a history has a spelling. A number in
//! a list is known to fit its type only where it is read, so each function here reads its value once, and does nothing
//! else.

pub mod entry;
pub mod list;
pub mod machine;
pub mod object;
