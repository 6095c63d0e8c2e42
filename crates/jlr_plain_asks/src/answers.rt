//! Which answer an ask gets, computed as the definitions say it, without memory.

pub mod answers;
pub mod handing;
pub mod replies;
