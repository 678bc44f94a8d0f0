// The input read on: from a piece of it, one line or what is left of the piece.
#![tactic(auto)]

ghost use Rattle.std.specs.Prelude.{◌≡◌, ◌≤◌, length};
ghost use Rattle.pieces.specs.Line.{kept_limit};
ghost use Rattle.frames.specs.State.{Running, frame_room};
ghost use Rattle.reader.specs.Reading.{next_line, says_no, within_line, behind_line, kept_line, LineTaken, Advanced};

use frames::{Counts, Store, turn};
use pieces::gather;
use std::ops::ControlFlow;

// Between two lines, or within one: what counts of the tables, the line's number from 1, how many of its bytes are held, and whether
// a query was refused or a proof rejected so far.
#[derive(Clone, Copy)]
pub struct Place {
    pub counts: Counts,
    pub line: u64,
    pub held: usize,
    pub refused: bool,
}

// What reading on comes to: where the piece is to be read on and how many bytes are printed; or the run breaks off with so many bytes
// of a refusal.
pub type Advance = ControlFlow<usize, (Place, usize, usize)>;

// The number of the line after this one. It is held at the last number that there is, which no input reaches.
fn next_line(line: u64) -> u64
    ensures { result ≡ next_line line }
{
    if line < u64::MAX { line + 1 } else { line }
}

// Whether what is printed says that a query is refused or a proof rejected: of all that a taken line prints these alone begin so.
fn says_no(room: &[u8], printed: usize) -> bool
    requires { printed ≤ length room.now }
    ensures { result ≡ says_no printed room.now }
{
    room[..printed].starts_with(b"r")
}

// The place within a line of which so many bytes are held.
fn within(place: Place, held: usize) -> Place
    ensures { result ≡ within_line place held }
{
    Place { held, ..place }
}

// The place behind a line that was taken.
fn behind(place: Place, counts: Counts, bad: bool) -> Place
    ensures { result ≡ behind_line place counts bad }
{
    let line = next_line(place.line);
    Place {
        counts,
        line,
        held: 0,
        refused: place.refused || bad,
    }
}

// Takes a whole line, behind which the piece is to be read on at a place.
fn take_line(
    place: Place,
    next: usize,
    digits: &[u8],
    bytes: &mut [u8],
    store: &mut Store,
) -> Advance
    requires running { Running place.counts store.old }
    requires frame_room_in_bounds { frame_room ≤ length bytes.old }
    ensures { LineTaken place next digits.now store.old result store.new }
{
    let (counts, count) = turn(place.counts, place.line, digits, bytes, store)?;
    let bad = says_no(&store.room, count);
    ControlFlow::Continue((behind(place, counts, bad), next, count))
}

// Reads on in a piece, from a place in it: up to a line feed, and then the line is taken, or to the piece's end. `line` and `bytes` are
// slices, as `gather` and `turn` have them: arrays would ask more of callers.
pub fn read_on(
    place: Place,
    piece: &[u8],
    from: usize,
    line: &mut [u8],
    bytes: &mut [u8],
    store: &mut Store,
) -> Advance
    requires running { Running place.counts store.old }
    requires from_in_bounds { (from ≤ length piece.now) × (place.held ≤ kept_limit) × (length line.old ≡ kept_limit) × (frame_room ≤ length bytes.old) }
    ensures advanced { Advanced place store.old piece.now from result line.new store.new }
    ensures line_after { line.new ≡ kept_line line.old place.held piece.now from }
{
    let gathered = gather(piece, from, line, place.held);
    let end = gathered.held;
    if !gathered.whole {
        return ControlFlow::Continue((within(place, end), gathered.next, 0));
    }
    take_line(place, gathered.next, &line[..end], bytes, store)
}
