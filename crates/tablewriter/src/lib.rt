// Writing the lines of an algebra: tables, the lines themselves, and how long they are before the first byte is written.
#![tactic(auto)]

pub mod lengths;
pub mod lines;
pub mod tables;
