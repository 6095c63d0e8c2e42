//! What a collection does once all that it keeps is marked: references to the rest lose it, those that were ready
//! become pending, and the rest is removed.
//!
//! A soft reference whose referent is kept by the policy was followed while marking, so that its referent is marked; no
//! other reference holds what it refers to. So all references of all kinds are treated alike here: which ones lose
//! their referents, in the order of soft, weak and phantom ones that the specification of the package `java.lang.ref`
//! gives, is a law of the machine.
#![tactic(auto)]

mod collection;
mod settle;

pub use collection::flip;
