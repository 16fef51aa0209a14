// Reading request lines. The numbers that a request lists are stored as bytes.
ghost use Rattle.std.specs.Prelude.{◌≤◌, ◌<◌, length};
ghost use Rattle.tablereader.specs.Tables.{table};
ghost use Rattle.reader.specs.Lines.{items_to_end, asks_with, two_numbers, request};
ghost use Rattle.tablereader.specs.InnerPromises.{RoomForText, StoredBy};
ghost use Rattle.reader.specs.InnerPromises.{RequestedBy, RequestReadIn};

use crate::lines::{read_close, read_spaced_number};
use numberreader::begins_with;
use tablereader::{Spot, read_items};

// What a request asks: Generate, Contained or Quotient with the numbers that were stored, Separate with two elements, Decompose.
#[derive(Clone, Copy, Debug, PartialEq, Eq)]
pub enum Asked {
    Generate,
    Contained,
    Separate(u8, u8),
    Decompose,
    Quotient,
}

// What is asked, the place after it in the text, and the place after its numbers in the storage.
#[derive(Clone, Copy, Debug, PartialEq, Eq)]
pub struct RequestLine {
    pub asked: Asked,
    pub next: usize,
    pub end: usize,
}

// Any count of tables of an arity, each after a gap, to the line's end.
fn read_items_to_end(n: u8, arity: u8, text: &[u8], from: Spot, room: &mut [u8]) -> Option<Spot>
    requires room_for_text { RoomForText text.now from.at room.old from.put }
    requires n_nonzero { 0 < n }
    ensures { StoredBy (items_to_end (table n arity)) text.entry from room.entry room.exit result }
{
    let items = read_items(n, arity, text, from, room)?;
    let next = read_close(text, items.at)?;
    Some(Spot { at: next, ..items })
}

// A request over such tables.
fn read_asking(
    n: u8,
    arity: u8,
    asked: Asked,
    text: &[u8],
    from: Spot,
    room: &mut [u8],
) -> Option<RequestLine>
    requires room_for_text { RoomForText text.now from.at room.old from.put }
    requires n_nonzero { 0 < n }
    ensures { RequestedBy (asks_with asked (table n arity)) text.entry from room.entry room.exit result }
{
    let items = read_items_to_end(n, arity, text, from, room)?;
    let line = RequestLine {
        asked,
        next: items.at,
        end: items.put,
    };
    Some(line)
}

// Two numbers, to the line's end.
fn read_separate(text: &[u8], from: Spot) -> Option<RequestLine>
    requires { from.at ≤ length text.now }
    ensures { RequestReadIn text.now from.at from.put (two_numbers text.now from.at) result }
{
    let v = read_spaced_number(text, from.at)?;
    let w = read_spaced_number(text, v.next)?;
    let next = read_close(text, w.next)?;
    Some(RequestLine {
        asked: Asked::Separate(v.value, w.value),
        next,
        end: from.put,
    })
}

// A request line; where it is faulty, nothing is asked.
pub fn read_request(text: &[u8], from: Spot, room: &mut [u8]) -> Option<RequestLine>
    requires { RoomForText text.now from.at room.old from.put }
    ensures { RequestedBy request text.entry from room.entry room.exit result }
{
    let Spot { at, put } = from;
    if begins_with(text, at, b"[generate") {
        return read_asking(2, 1, Asked::Generate, text, Spot { at: at + 9, put }, room);
    }
    if begins_with(text, at, b"[contained") {
        return read_asking(
            1,
            0,
            Asked::Contained,
            text,
            Spot { at: at + 10, put },
            room,
        );
    }
    if begins_with(text, at, b"[separate") {
        return read_separate(text, Spot { at: at + 9, put });
    }
    if begins_with(text, at, b"[decompose]\n") {
        return Some(RequestLine {
            asked: Asked::Decompose,
            next: at + 12,
            end: put,
        });
    }
    if begins_with(text, at, b"[quotient") {
        return read_asking(1, 0, Asked::Quotient, text, Spot { at: at + 9, put }, room);
    }
    None
}
