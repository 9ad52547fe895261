//! Counts of posts and steps.

/// The most posts, and the most steps, that an image counts: 2^63 - 1.
pub const MOST_COUNTED: u64 = (1 << 63) - 1;

/// How many messages clients posted, and how many steps actors took.
#[derive(Clone, Copy, PartialEq, Eq, Debug)]
pub struct Counts {
    pub posts: u64,
    pub steps: u64,
}
