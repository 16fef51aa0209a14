// Parts of a bench's image: numbers with the lowest byte first, names and maps as they are, a point as its name and its map, the points of a sheet as their
// count and the eight places. Each is read from the byte where it begins, and written there; every other byte stays.
#![tactic(auto)]

ghost use Rattle.std.specs.Prelude.{◌≡◌, map, ◌+◌, ◌*◌, ◌≤◌, ◌<◌, ◌^◌, length};
ghost use Rattle.equivalence.specs.Lists.{concat};
ghost use Rattle.imagepart.specs.Parts.{part, little, little_in, point_bytes, points_bytes, map_in, place_in, places_in};
ghost use Rattle.imagepart.specs.Copies.{copied};
ghost use Rattle.imagepart.specs.InnerSteps.{Laid};

use sheet::{MAP_BYTES, NAME_BYTES, PLACES, Point};
use std::array;

// How many bytes a point has.
const POINT_BYTES: usize = 72;

// Copies the part to the start of out, as far as it fits.
pub fn copy_part(part: &[u8], out: &mut [u8])
    ensures { out.new ≡ copied part.now out.old }
{
    let n = part.len().min(out.len());
    equivalence::blocks::copy(n, &part[..n], out);
}

// The number that the k bytes from `from` on show.
pub fn read_little(bytes: &[u8], from: usize, k: usize) -> u64
    requires k_in_bounds { from + k ≤ length bytes.now }
    requires k_bound { k ≤ 8 }
    ensures { (result ≡ little_in (part from k bytes.now)) × (result < 256 ^ k) }
{
    let mut x = 0;
    for i in (0..k).rev() {
        x = x * 256 + u64::from(bytes[from + i]);
    }
    x
}

// The N bytes from `from` on: a name, or a map.
pub fn read_part<const N: usize>(bytes: &[u8], from: usize) -> [u8; N]
    requires { from + N ≤ length bytes.now }
    ensures { result ≡ part from N bytes.now }
{
    let mut read = [0u8; N];
    read.copy_from_slice(&bytes[from..from + N]);
    read
}

// The map of sheet s.
pub fn read_map_of(bytes: &[u8], s: usize) -> [u8; MAP_BYTES]
    requires in_bounds { 512 ≤ length bytes.now }
    requires s_bound { s < 8 }
    ensures { result ≡ map_in bytes.now s }
{
    read_part(bytes, s * MAP_BYTES)
}

// The point from `from` on.
fn read_point(bytes: &[u8], from: usize) -> Point
    requires { from + 72 ≤ length bytes.now }
    ensures { result ≡ place_in bytes.now from }
{
    let name = read_part(bytes, from);
    let map = read_part(bytes, from + NAME_BYTES);
    Point { name, map }
}

// The eight places from `from` on.
pub fn read_places(bytes: &[u8], from: usize) -> [Point; PLACES]
    requires { from + 576 ≤ length bytes.now }
    ensures { result ≡ places_in bytes.now from }
{
    array::from_fn(|i| read_point(bytes, from + i * POINT_BYTES))
}

// Writes a number into the k bytes from `to` on, the lowest byte first.
pub fn write_little(x: u64, k: usize, bytes: &mut [u8], to: usize)
    requires { to + k ≤ length bytes.old }
    ensures { Laid k (little k x) to bytes.old bytes.new }
{
    let mut rest = x;
    for i in 0..k {
        bytes[to + i] = (rest % 256) as u8;
        rest /= 256;
    }
}

// Writes bytes from `to` on.
fn lay_part(part: &[u8], bytes: &mut [u8], to: usize)
    requires { to + length part.now ≤ length bytes.old }
    ensures { Laid (length part.now) part.now to bytes.old bytes.new }
{
    bytes[to..to + part.len()].copy_from_slice(part);
}

// Writes the map of sheet s.
pub fn lay_map_of(map: &[u8; MAP_BYTES], bytes: &mut [u8], s: usize)
    requires in_bounds { 512 ≤ length bytes.old }
    requires s_bound { s < 8 }
    ensures { Laid 64 map.now (s * 64) bytes.old bytes.new }
{
    lay_part(map, bytes, s * MAP_BYTES);
}

// Writes a point from `to` on.
fn lay_point(point: Point, bytes: &mut [u8], to: usize)
    requires { to + 72 ≤ length bytes.old }
    ensures { Laid 72 (point_bytes point) to bytes.old bytes.new }
{
    lay_part(&point.name, bytes, to);
    lay_part(&point.map, bytes, to + NAME_BYTES);
}

// Writes eight places from `to` on.
fn lay_places(places: [Point; PLACES], bytes: &mut [u8], to: usize)
    requires { to + 576 ≤ length bytes.old }
    ensures { Laid 576 (concat (map point_bytes places)) to bytes.old bytes.new }
{
    for (i, &point) in places.iter().enumerate() {
        lay_point(point, bytes, to + i * POINT_BYTES);
    }
}

// Writes the points of a sheet from `to` on.
pub fn lay_points(count: usize, places: [Point; PLACES], bytes: &mut [u8], to: usize)
    requires { to + 577 ≤ length bytes.old }
    ensures { Laid 577 (points_bytes count places) to bytes.old bytes.new }
{
    write_little(count as u64, 1, bytes, to);
    lay_places(places, bytes, to + 1);
}
