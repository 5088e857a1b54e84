// Tonnage texts: kilograms written as tonnes, read and written.
#![tactic(auto)]

pub mod digits;
mod figure;
mod form;
pub mod text;
