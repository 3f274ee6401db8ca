//! The tests of the libraries from `nv_base` to `nv_book` that know no cell: what no contract says of them.
//!
//! They stand in a crate of their own since a crate with tests is proved twice. What they start from is in `nv_scenes`, and
//! how they compare in `compare`.
#![tactic(auto)]

#[cfg(test)]
mod compare;
#[cfg(test)]
mod limits;
#[cfg(test)]
mod memory;
#[cfg(test)]
mod runs;
#[cfg(test)]
mod sends;
#[cfg(test)]
mod texts;
