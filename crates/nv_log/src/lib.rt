//! The log of an inode as a chain of pages.
//!
//! A [`Chain`] owns the block of each of its pages. Its entries stand in append order, page after page, and
//! those up to the tail are the log. A page holds the same number of entries in all pages of a chain.
#![tactic(auto)]

mod chain;
mod commit_run;
mod image;
mod pages;
mod reads;
mod removal;
mod search;

pub use chain::Chain;
pub use image::ChainImage;
pub use reads::ReadCount;
