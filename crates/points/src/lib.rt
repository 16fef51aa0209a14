// The points of a sheet change: one is stored, gone back to, or forgotten.
#![tactic(auto)]

ghost use Rattle.std.specs.Prelude.{◌≡◌, ◌<◌, ◌≤◌, T, take};
ghost use Rattle.equivalence.specs.Lent.{written};
ghost use Rattle.sheet.specs.Sheet.{sheet_with};
ghost use Rattle.sheet.specs.Points.{is_held, place_named, map_under, with_point, without_point};

use sheet::{MAP_BYTES, NAME_BYTES, Point, Sheet};

// The sheet with its map stored under the name: in the place of that name, or in the first that is free.
pub fn with_point(mut sheet: Sheet, name: [u8; NAME_BYTES]) -> Sheet
    requires count_bound { sheet.count ≤ 8 }
    requires sheet_bound { place_named name sheet < 8 }
    ensures { result ≡ with_point name sheet }
{
    let place = sheet::points::place_named(sheet, name);
    let map = sheet.map;
    sheet.points[place] = Point { name, map };
    sheet.count = sheet.count.max(place + 1);
    sheet
}

// The sheet without the point of the name: the last held one comes into its place.
pub fn without_point(mut sheet: Sheet, name: [u8; NAME_BYTES]) -> Sheet
    requires count_bound { sheet.count ≤ 8 }
    requires t { T (is_held name sheet) }
    ensures { result ≡ without_point name sheet }
{
    let place = sheet::points::place_named(sheet, name);
    let last = sheet.count - 1;
    sheet.points[place] = sheet.points[last];
    sheet.count = last;
    sheet
}

// Writes the first n bytes of one map over those of another.
fn copy_map(n: usize, from: &[u8; MAP_BYTES], map: &mut [u8; MAP_BYTES])
    requires { n ≤ 64 }
    ensures { map.new ≡ written (take n from.now) map.old }
{
    map[..n].copy_from_slice(&from[..n]);
}

// The sheet with the map that is stored under the name.
pub fn returned(sheet: Sheet, n: usize, name: [u8; NAME_BYTES]) -> Sheet
    requires n_bound { n ≤ 64 }
    requires count_bound { sheet.count ≤ 8 }
    requires t { T (is_held name sheet) }
    ensures { result ≡ sheet_with (map_under n name sheet) sheet }
{
    let place = sheet::points::place_named(sheet, name);
    let mut map = sheet.map;
    copy_map(n, &sheet.points[place].map, &mut map);
    Sheet { map, ..sheet }
}
