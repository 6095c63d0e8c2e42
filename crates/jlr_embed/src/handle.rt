//! What a program in C holds of a heap, and each kind of call on it. C sees one pointer, which is null while the handle
//! is closed, so that no call requires anything: a call on a closed handle says so. A call is one event of the heap and
//! tells how it was answered: it returns 0 or a number that says why not, and gives what it gives through an out
//! pointer, behind which all stays as it was unless it returns 0. It relies on the heap for one program. Memory is
//! taken by `open`, which makes all room, and by the events of which the core says so. It carries the promise that a
//! call is an `IsStep` of the heap behind the handle, and that every answer is told.

pub mod calls;
mod handle;
mod loose;
pub mod open;
pub mod out;
pub mod status;
pub mod tell;

pub use handle::Heap;
