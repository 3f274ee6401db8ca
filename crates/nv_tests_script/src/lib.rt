//! The tests of scripts: worked rows, texts, faults of lines, and readers and writers that fail. What scripts write was worked out by
//! hand.
//!
//! They stand in a crate of their own since a crate with tests is proved twice. How they compare is in `compare`.
#![tactic(auto)]

#[cfg(test)]
mod cleaners;
#[cfg(test)]
mod cleaners_beside;
#[cfg(test)]
mod compare;
#[cfg(test)]
mod devices;
#[cfg(test)]
mod ends;
#[cfg(test)]
mod faults;
#[cfg(test)]
mod growths;
#[cfg(test)]
mod json;
#[cfg(test)]
mod pieces;
#[cfg(test)]
mod playing;
#[cfg(test)]
mod reports;
#[cfg(test)]
mod rows;
#[cfg(test)]
mod scripts;
#[cfg(test)]
mod snapshots;
#[cfg(test)]
mod stops;
#[cfg(test)]
mod told;
#[cfg(test)]
mod traced;
#[cfg(test)]
mod twins;
#[cfg(test)]
mod worked;
