//! The tests of scripts that threads play: what they write, in how many threads and cleaners ever, and how they end.
//!
//! They start threads and wait, which tests alone may. How they compare is in `compare`.
#![tactic(auto)]

#[cfg(test)]
mod cleaning;
#[cfg(test)]
mod compare;
#[cfg(test)]
mod failing;
#[cfg(test)]
mod faults;
#[cfg(test)]
mod full;
#[cfg(test)]
mod gates;
#[cfg(test)]
mod played;
#[cfg(test)]
mod writers;
