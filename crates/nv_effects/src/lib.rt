//! What calls leave that are made one at a time, in the words of the plain world: laws that a caller cites.
//!
//! Each is the contract of a function that does nothing. A law speaks of one call of the plain world with numbers, of its
//! answer and of the world after it. Methods with types of their own tell just these.
#![tactic(auto)]

pub mod laws;
