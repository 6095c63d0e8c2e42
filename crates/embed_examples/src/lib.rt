//! Three uses of a heap in the same process, a cache, a pool and a watcher, and tests of it: lists of calls, and what
//! each gives. The uses rely on `jlr_heap` alone: each function over the heap says which entry it is, or leaves that to
//! the method. All is read with the tests alone, so that it is proved once.
#![tactic(auto)]

#[cfg(test)]
mod cache;
#[cfg(test)]
mod pool;
#[cfg(test)]
mod tests;
#[cfg(test)]
mod watcher;
