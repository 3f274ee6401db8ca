//! The tests of the running service: sessions in turn and in threads, beside a twin world on which the same calls are
//! made one after another.
//!
//! They start threads and wait, which tests alone may. What they start from is in `nv_scenes`, and how they compare in
//! `compare`.
#![tactic(auto)]

#[cfg(test)]
mod beside;
#[cfg(test)]
mod calls;
#[cfg(test)]
mod closing;
#[cfg(test)]
mod compare;
#[cfg(test)]
mod contended;
#[cfg(test)]
mod differing;
#[cfg(test)]
mod each_call;
#[cfg(test)]
mod failing;
#[cfg(test)]
mod growths;
#[cfg(test)]
mod own_files;
#[cfg(test)]
mod refusals;
#[cfg(test)]
mod reports;
#[cfg(test)]
mod runner;
#[cfg(test)]
mod seats;
#[cfg(test)]
mod served;
#[cfg(test)]
mod shows;
#[cfg(test)]
mod threads;
#[cfg(test)]
mod turns;
#[cfg(test)]
mod words;
#[cfg(test)]
mod worlds;
