// Reading the lines of bracket text: those of an algebra, taken one by one, and requests.
#![tactic(auto)]

pub mod lines;
pub mod requests;
pub mod taking;
