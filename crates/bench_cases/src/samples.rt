// Sheets of a caller's own making, over four elements.
use bench::Bench;
use sheet::{Point, Sheet};

// A sheet without points.
pub fn plain(map: [u8; 64]) -> Sheet {
    let mut sheet = sheet::zeros();
    sheet.map = map;
    sheet
}

// The identity over four elements, and this tally.
pub fn tallied(tally: u64) -> Sheet {
    let mut sheet = plain(bytes(1));
    sheet.tally = tally;
    sheet
}

// A bench of the caller's own making over four elements: identities but on sheet 5.
pub fn forged(sheet: Sheet) -> Bench {
    let made = bench::start(4);
    let mut bench = made.bench;
    bench.sheets[5] = sheet;
    bench
}

// 0 1 2 3, 0 0 2 3, or 0 2 2 3, which is no map.
pub fn bytes(second: u8) -> [u8; 64] {
    let mut map = [0u8; 64];
    map[1] = second;
    map[2] = 2;
    map[3] = 3;
    map
}

// A sheet that holds `count` points with these bytes as their map, all under one name.
pub fn pointed(count: usize, map: [u8; 64]) -> Sheet {
    let mut sheet = plain(bytes(1));
    sheet.count = count;
    sheet.points = [Point {
        name: *b"samename",
        map,
    }; 8];
    sheet
}
