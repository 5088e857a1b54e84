// The planner: which transactions of a batch can stand together, and in which order.
#![tactic(auto)]

mod admission;
mod demand;
mod fill;
pub mod joined;
pub mod plan;
mod ranks;
mod schedule;
