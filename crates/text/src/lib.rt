// Text as bytes: decimal numbers, keys and separators, read from a slice; bytes, and other items, written to one. Every function is total.
#![tactic(auto)]

pub mod reading;
pub mod writing;
