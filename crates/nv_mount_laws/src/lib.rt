//! Laws of a mounted file system whose world is the plain one with numbers: what its requests
//! leave, and what stays.
//!
//! Each is the contract of a function that does nothing. A law speaks of the dialogue of one
//! request, as `nv_mounted` tells it, had with a world whose calls are those of `nv_serial`.
#![tactic(auto)]

pub mod laws;
