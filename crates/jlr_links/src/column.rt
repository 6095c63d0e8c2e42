//! Columns: a value for each number below a length, of which only the front lies in memory.
//!
//! A column is made with room for all its values, and none is written then: at each place stands the blank of its type.
//! Memory that was never written costs nothing, since the system gives it at the first write; so a column is filled
//! only up to the highest place that was lent to be written. Contracts see the whole list. No call but `Column::new`
//! takes memory.

mod blank;
mod column;

pub use blank::Blank;
pub use column::Column;
