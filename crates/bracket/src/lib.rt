// Bracket text: what each line is answered with, and a run in fills; `reader` reads, `writer` writes.
#![tactic(auto)]

pub mod run;
mod steps;
