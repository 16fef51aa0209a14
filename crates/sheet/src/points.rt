// The points of a sheet: looked for by name, and tested.
ghost use Rattle.std.specs.Prelude.{◌≡◌, ◌≤◌, length};
ghost use Rattle.equivalence.specs.Lists.{up_to, every};
ghost use Rattle.sheet.specs.Points.{first_named, is_held, is_full_for, place_named, is_point};

use super::{NAME_BYTES, PLACES, Point, Sheet};

// The first of the points that has the name; how many there are where none has.
fn first_named(points: &[Point], name: [u8; NAME_BYTES]) -> usize
    ensures { (result ≡ first_named name points.now (length points.now)) × (result ≤ length points.now) }
{
    points
        .iter()
        .position(|point| point.name == name)
        .unwrap_or(points.len())
}

// Whether they are points over n, under names that differ.
pub fn all_right(n: usize, points: &[Point]) -> bool
    requires { n ≤ 64 }
    ensures { result ≡ every (is_point n points.now) (up_to (length points.now)) }
{
    for (i, point) in points.iter().enumerate() {
        if !super::has_map(n, &point.map) {
            return false;
        }
        if first_named(&points[..i], point.name) < i {
            return false;
        }
    }
    true
}

// The place of the point of this name; where none is held, the first that is free.
pub fn place_named(sheet: Sheet, name: [u8; NAME_BYTES]) -> usize
    requires { sheet.count ≤ 8 }
    ensures { (result ≡ place_named name sheet) × (result ≤ sheet.count) }
{
    first_named(&sheet.points[..sheet.count], name)
}

// Whether the sheet holds a point of this name.
pub fn is_held(sheet: Sheet, name: [u8; NAME_BYTES]) -> bool
    requires { sheet.count ≤ 8 }
    ensures { result ≡ is_held name sheet }
{
    place_named(sheet, name) < sheet.count
}

// Whether the name is new and no place is free.
pub fn is_full_for(sheet: Sheet, name: [u8; NAME_BYTES]) -> bool
    requires { sheet.count ≤ 8 }
    ensures { result ≡ is_full_for name sheet }
{
    !is_held(sheet, name) && sheet.count == PLACES
}
