//! Linked lists of numbers over arrays of links, and a queue by cost in buckets that are such
//! lists.
#![tactic(auto)]

mod bits;
mod heads;
mod lists;
mod queue;

pub use lists::Lists;
pub use queue::BucketQueue;
