//! A row is an entry in words: `weak 1 0 -> handle 2, in 1` asks for a weak reference, is answered with handle 2, and
//! puts the new object into slot 1. `full -> done, keeps 0 2, pends 2` tells of a collection that kept the objects in
//! slots 0 and 2 and put the one in slot 2 behind the pending list; one that kept none is told by `keeps`. The asks are
//! those of `jlr_words`. A row that begins with `wrong` is no legal entry.
//!
//! A text has several lists. Each begins with `== ` and its name, and is a run from the empty machine with 16 cells,
//! one session and 16 resources, but for what its name says behind a colon. A line that begins with `-- ` is a comment.
mod cleaning;
mod cycles;
mod entries;
mod events;
mod images;
mod memory;
mod play;
mod references;
mod refusals;
mod same;
mod wrong;
