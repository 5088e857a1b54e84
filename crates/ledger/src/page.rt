// Pages: 512 bytes that hold one transaction.
pub mod check;
pub mod content;
pub mod counts;
mod entries;
mod entry;
pub mod fill;
mod good;
pub mod read;
pub mod write;
