// Decompose's first loop: congruences that meet in the identity, or a pair that all but the identity join. Decompose lists what is gathered, and Certify looks whether a
// quotient has such congruences.
#![tactic(auto)]

pub mod gather;
mod gather_kept;
mod pace;
mod step;
