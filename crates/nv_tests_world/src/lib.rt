//! The tests of worlds, and of files that are kept by one caller: what no contract says of them.
//!
//! They stand in a crate of their own since a crate with tests is proved twice, and so that they are proved while the
//! crates above the world are. What they start from is in `nv_scenes` and `nv_scenes_calls`, and how they compare in
//! `compare`.
#![tactic(auto)]

#[cfg(test)]
mod compare;
#[cfg(test)]
mod drawn;
#[cfg(test)]
mod let_go;
#[cfg(test)]
mod made;
#[cfg(test)]
mod methods;
#[cfg(test)]
mod reads;
#[cfg(test)]
mod runs;
