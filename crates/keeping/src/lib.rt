// What pairs of elements give is kept, for whoever closes the same pairs again and again. For x < y, 64 bytes at the place of the pair hold a map that joins x and y and
// their images under all translations, and that lies inside every congruence that joins x and y; one pass makes it. Its mark says whether it is a congruence itself:
// closing it is left to `principal::principal`, and then done once.
#![tactic(auto)]

pub mod inside;
pub mod join;
pub mod pairs;
pub mod principal;

// How many pairs 64 elements have: as many marks are lent.
pub const PLACES: usize = 2016;

// The bytes of as many maps.
pub const MAP_BYTES: usize = 129024;

// Nothing is kept for a pair.
pub const NOTHING: u8 = 0;

// A map is kept.
pub const KEPT: u8 = 1;

// The map that is kept is a congruence.
pub const WHOLE: u8 = 2;
