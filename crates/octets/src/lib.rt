// Bytes: numbers in them, lowest byte first, and the weighted sum that a page's check is.
#![tactic(auto)]

pub mod bytes;
pub mod weight;
