// A sheet of the bench: a map, a tally of the blocks that it lost, and up to eight points to go back to, each a map under a name. A sheet is a value. Any sheet is legal, also one that no
// call gave: its count may be too large, and what stands in its places may be no map.
#![tactic(auto)]

ghost use Rattle.std.specs.Prelude.{◌≡◌, ◌≤◌, take};
ghost use Rattle.equivalence.specs.Equivalence.{is_map, identity};
ghost use Rattle.equivalence.specs.Lent.{written};
ghost use Rattle.sheet.specs.Sheet.{zero_sheet, sheet_with};
ghost use Rattle.sheet.specs.Points.{is_faultless};

mod maps;
pub mod points;

// How many bytes a map is kept in.
pub const MAP_BYTES: usize = 64;

// How many bytes a name has.
pub const NAME_BYTES: usize = 8;

// How many points a sheet has places for.
pub const PLACES: usize = 8;

// A map that was on the sheet, under a name. Bytes of the map past n are never read.
#[derive(Clone, Copy)]
pub struct Point {
    pub name: [u8; NAME_BYTES],
    pub map: [u8; MAP_BYTES],
}

// A map in the first n bytes, and points in the first `count` places. Bytes past n and the other places are never read.
#[derive(Clone, Copy)]
pub struct Sheet {
    pub map: [u8; MAP_BYTES],
    pub tally: u64,
    pub count: usize,
    pub points: [Point; PLACES],
}

// A sheet of zeros.
pub fn zeros() -> Sheet
    ensures { result ≡ zero_sheet }
{
    let map = [0u8; MAP_BYTES];
    let point = Point {
        name: [0u8; NAME_BYTES],
        map,
    };
    Sheet {
        map,
        tally: 0,
        count: 0,
        points: [point; PLACES],
    }
}

fn write_identity(n: usize, map: &mut [u8; MAP_BYTES])
    requires { n ≤ 64 }
    ensures { map.new ≡ written (identity n) map.old }
{
    equivalence::blocks::identity(n, map);
}

// The sheet with the identity over n.
pub fn with_identity(sheet: Sheet, n: usize) -> Sheet
    requires { n ≤ 64 }
    ensures { result ≡ sheet_with (identity n) sheet }
{
    let mut map = sheet.map;
    write_identity(n, &mut map);
    Sheet { map, ..sheet }
}

// Whether the first n bytes are a map over n. Of 64 elements the compiler makes code of its own.
pub fn has_map(n: usize, map: &[u8; MAP_BYTES]) -> bool
    requires { n ≤ 64 }
    ensures { result ≡ is_map n (take n map.now) }
{
    if n == MAP_BYTES {
        return maps::is_map(map);
    }
    maps::is_map(&map[..n])
}

// Whether the sheet is without fault over n.
pub fn is_faultless(n: usize, sheet: Sheet) -> bool
    requires { n ≤ 64 }
    ensures { result ≡ is_faultless n sheet }
{
    if !has_map(n, &sheet.map) {
        return false;
    }
    if sheet.count > PLACES {
        return false;
    }
    points::all_right(n, &sheet.points[..sheet.count])
}
