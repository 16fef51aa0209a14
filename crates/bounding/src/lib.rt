// Bounds of a search for the earliest congruence that holds two elements apart: pairs are settled in their order, and what may still be found lies inside a congruence that is made smaller between rows.
#![tactic(auto)]

pub mod blocks;
pub mod bounds;
