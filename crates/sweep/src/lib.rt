// The images of two elements under translations, joined in a map that keeps a queue of the names taken away by merges. Maps have 64 bytes here; those past n name
// themselves.
#![tactic(auto)]

pub mod lines;
pub mod queue;
pub mod step;
pub mod tables;

// When a pass ends: after `limit` merges in all, since one block is left then, or where v and w, if they are two, have been joined.
#[derive(Clone, Copy)]
pub struct Stop {
    pub limit: usize,
    pub v: usize,
    pub w: usize,
}

// A pass over the cells of an algebra of n elements. The other arguments run through `live`. `refused` is a table of pairs, with rows of 64: whatever joins one of them joins
// v and w.
#[derive(Clone, Copy)]
pub struct Pass<'a> {
    pub n: usize,
    pub cells: &'a [u8],
    pub live: &'a [u8],
    pub refused: &'a [u8],
    pub stop: Stop,
}

// Two lines of a table that are compared: they begin at p and q, and their cells are `stride` apart.
#[derive(Clone, Copy)]
pub struct LinePair {
    pub p: usize,
    pub q: usize,
    pub stride: usize,
}

// The table at o, of which the results with x and with y in the same place are compared.
#[derive(Clone, Copy)]
pub struct ImagePair {
    pub o: usize,
    pub x: usize,
    pub y: usize,
}
