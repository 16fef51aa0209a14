// Equivalences on the elements 0 to n - 1, written as maps; and the types that every layer above shares.
#![tactic(auto)]

pub mod blocks;
pub mod checks;
pub mod map;

// The reasons to decline, by their numbers. Reason 11 carries two elements: it is a case of `Decomposed`.
#[derive(Debug, Clone, Copy, PartialEq, Eq)]
pub enum Refusal {
    Size,
    Operations,
    Arity,
    Cells,
    Length,
    Cell,
    Range,
    NotMap,
    Space,
    Equal,
    NotCongruence,
    Tally,
    Text,
    UnknownName,
    PointsFull,
}

// An element of an algebra.
#[derive(Debug, Clone, Copy, PartialEq, Eq)]
pub struct Element(pub u8);

// Two elements.
#[derive(Debug, Clone, Copy, PartialEq, Eq)]
pub struct Pair {
    pub x: usize,
    pub y: usize,
}
