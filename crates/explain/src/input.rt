// The input, piece by piece, and what is printed for it.
ghost use Rattle.std.specs.Prelude.{◌≡◌, ◌≤◌, length};
ghost use Rattle.frames.specs.State.{text_room};
ghost use Rattle.reader.specs.Reading.{kept_line};
ghost use Rattle.reader.specs.Fold.{at_first};
ghost use Rattle.explain.specs.Reading.{digit_of, Ready, Fits, Shown, Step};
ghost use Rattle.explain.specs.Pieces.{PieceTaken, Ended, PieceRead, CameTo};

use frames::{Counts, Store, finish};
use hex_lines::DIGIT_LIMIT;
use pieces::KEPT_LIMIT;
use reader::{Advance, Place, read_on};
use std::io::{self, Eprint, Input, Read, Write};
use std::ops::ControlFlow;

// A byte of a frame takes two digits of its line.
pub const FRAME_ROOM: usize = DIGIT_LIMIT / 2;

// What the program holds beside the piece that it reads: the line that is open, the bytes that a line spells, and the store. Arrays: a rule
// of the project (no heap, fixed memory).
#[derive(Drop)]
pub struct Memory {
    pub line: [u8; KEPT_LIMIT],
    pub bytes: [u8; FRAME_ROOM],
    pub store: Store,
}

// What a run comes to: everything is answered and accepted, some query is refused or proof rejected, a refusal stopped it, or there
// is trouble with the input or the output.
#[derive(Clone, Copy, PartialEq, Eq)]
pub enum Outcome {
    AllWell,
    SomeRefused,
    Stopped,
    Trouble,
}

// After a line, or what is left of a piece: where to go on, and at which place in the piece, or the run is over.
type Stepped = ControlFlow<Outcome, (Place, usize)>;

// After a piece: where to go on, or the run is over.
type Reading = ControlFlow<Outcome, Place>;

// The digit that says what a run came to.
impl From<Outcome> for u8 {
    ghost from_gives = { λ o n. n ≡ digit_of o };

    fn from(outcome: Outcome) -> u8 {
        match outcome {
            Outcome::AllWell => 0,
            Outcome::SomeRefused => 1,
            Outcome::Stopped => 2,
            Outcome::Trouble => 3,
        }
    }
}

// Tells a failure of the input or the output on standard error. Where that fails too, nobody is left to tell.
fn tell(rt: &HostRuntime, what: &str, error: &io::Error) {
    let _ = eprintln!(rt; "{what}: {error}");
}

// Prints the first bytes of the room. A failure is told on standard error.
fn print(rt: &HostRuntime, room: &[u8], count: usize) -> bool
    requires { count ≤ length room.now }
{
    match io::writer(rt).write_all(&room[..count]) {
        Ok(()) => true,
        Err(error) => {
            tell(rt, "output", &error);
            false
        }
    }
}

// Prints what reading on came to.
fn show(rt: &HostRuntime, advance: Advance, room: &[u8]) -> Stepped
    requires { Fits advance room.now }
    ensures { Shown advance result }
{
    match advance {
        ControlFlow::Continue((place, to, count)) => {
            if print(rt, room, count) {
                ControlFlow::Continue((place, to))
            } else {
                ControlFlow::Break(Outcome::Trouble)
            }
        }
        ControlFlow::Break(count) => {
            if print(rt, room, count) {
                ControlFlow::Break(Outcome::Stopped)
            } else {
                ControlFlow::Break(Outcome::Trouble)
            }
        }
    }
}

// Reads on in a piece, and prints what that comes to. That place and store belong together stays a clause here and in the two below, as
// `turn` of crate frames has it: behind a refusal they do not.
fn step(rt: &HostRuntime, place: Place, piece: &[u8], from: usize, memory: &mut Memory) -> Stepped
    requires ready { Ready place memory.old.store }
    requires from_in_bounds { from ≤ length piece.now }
    ensures step { Step place memory.old.store piece.now from result memory.new.line memory.new.store }
    ensures line_after { memory.new.line ≡ kept_line memory.old.line place.held piece.now from }
{
    let advance = read_on(
        place,
        piece,
        from,
        &mut memory.line,
        &mut memory.bytes,
        &mut memory.store,
    );
    show(rt, advance, &memory.store.room)
}

// Reads a piece to its end, or until the run is over. A step says where to read on, so no `for` can count the place.
fn take_piece(rt: &HostRuntime, mut place: Place, piece: &[u8], memory: &mut Memory) -> Reading
    requires { Ready place memory.old.store }
    ensures { PieceTaken place memory.old piece.now result memory.new }
{
    let mut from = 0;
    while from < piece.len() {
        let (next, to) = step(rt, place, piece, from, memory)?;
        place = next;
        from = to;
    }
    ControlFlow::Continue(place)
}

// The end of the input: what is printed then, and what the run came to.
fn end(rt: &HostRuntime, place: Place, room: &mut [u8]) -> Outcome
    requires { length room.old ≡ text_room }
    ensures { Ended place result }
{
    let counts = place.counts;
    let count = finish(counts, place.line, place.held, room);
    if !print(rt, room, count) {
        return Outcome::Trouble;
    }
    if count != 0 {
        return Outcome::Stopped;
    }
    if place.refused {
        return Outcome::SomeRefused;
    }
    Outcome::AllWell
}

// One piece read from standard input and taken; the run is over where there is none.
fn read_piece(rt: &HostRuntime, place: Place, piece: &mut [u8], memory: &mut Memory) -> Reading
    requires { Ready place memory.old.store }
    ensures { PieceRead place memory.old piece.new result memory.new }
{
    match rt.reader().read(piece) {
        Err(error) => {
            tell(rt, "input", &error);
            ControlFlow::Break(Outcome::Trouble)
        }
        Ok(0) => ControlFlow::Break(end(rt, place, &mut memory.store.room)),
        Ok(n) => take_piece(rt, place, &piece[..n], memory),
    }
}

// Reads standard input to its end. A proved loop has to end, and nothing says that the input does, so the loop is held at a number
// of turns that no run uses up.
pub fn read_all(rt: &HostRuntime, piece: &mut [u8], memory: &mut Memory) -> Outcome
    ensures { CameTo memory.old result }
{
    let mut at = first();
    for _ in 0..u64::MAX {
        match read_piece(rt, at, piece, memory) {
            ControlFlow::Continue(next) => at = next,
            ControlFlow::Break(outcome) => return outcome,
        }
    }
    Outcome::Trouble
}

// Before the first byte.
fn first() -> Place
    ensures { result ≡ at_first }
{
    let counts = Counts {
        // no frame yet
        kind: 0,
        nodes: 0,
        rules: 0,
        connections: 0,
        offered: 0,
    };
    Place {
        counts,
        line: 1,
        held: 0,
        refused: false,
    }
}
