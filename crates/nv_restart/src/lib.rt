//! Images and mounts: laws of what a device has once it has stopped, and of the world that goes on
//! from there.
#![tactic(auto)]

pub mod history_laws;
pub mod judged_laws;
pub mod mount_laws;
pub mod world_laws;
