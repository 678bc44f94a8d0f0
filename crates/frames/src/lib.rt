// Frames: one line in, what it prints out. The store of the tables, the words of an open proof and the text is lent; how much of it
// counts is passed by value.
#![tactic(auto)]

mod steps;

ghost use Rattle.std.specs.Prelude.{◌≡◌, ◌≤◌, length};
ghost use Rattle.model.specs.Run.{in_order};
ghost use Rattle.laws.specs.Area.{splice};
ghost use Rattle.frames.specs.State.{text_room, Running, frame_room};
ghost use Rattle.frames.specs.Step.{FrameStep, LineStep, LineTurn, end_text};

use hex_lines::{is_line, put_bytes};
use model::{
    CONNECTION_WORDS, FLAT_WORDS, NODE_LIMIT, NODE_WORDS, RULE_LIMIT, RULE_WORDS, Refusal,
};
use reports::{REPORT_ROOM, put_refusal};
use std::ops::ControlFlow;
use steps::{close_step, connection_step, node_step, query_step, rule_step, words_step};

// A table has room for one entry more than there may be: the one that is refused for it.
pub const NODE_ROOM: usize = NODE_LIMIT * NODE_WORDS + NODE_WORDS;

pub const RULE_ROOM: usize = RULE_LIMIT * RULE_WORDS + RULE_WORDS;

// There are always fewer connections than nodes.
pub const CONNECTION_ROOM: usize = NODE_LIMIT * CONNECTION_WORDS;

// The program's area.
pub const AREA_WORDS: usize = 32768;

// Room for what a line prints: 28 bytes for each node of the longest proof that fits the area, and a report.
pub const TEXT_ROOM: usize = AREA_WORDS / FLAT_WORDS * 28 + REPORT_ROOM;

// The kinds of frames: a node, a rule, a connection, a query, words of an offered proof, and that proof's end.
const NODE_KIND: u8 = 1;

const RULE_KIND: u8 = 2;

const CONNECTION_KIND: u8 = 3;

const QUERY_KIND: u8 = 4;

const WORDS_KIND: u8 = 5;

const END_KIND: u8 = 6;

// All that a run holds: the tables, the classes of the nodes by their connections, the words of an open proof or of an answer, and
// room for what a line prints. Arrays, and counts beside them: a rule of the project (no heap, fixed memory).
#[derive(Drop)]
pub struct Store {
    pub nodes: [u16; NODE_ROOM],
    pub rules: [u16; RULE_ROOM],
    pub conns: [u16; CONNECTION_ROOM],
    pub classes: [u16; NODE_LIMIT],
    pub area: [u16; AREA_WORDS],
    pub room: [u8; TEXT_ROOM],
}

// The kind of the last frame, how many entries each table has, and how many words the open proof. The kind is a number: `turn` and
// `finish`, which docs/MAP.md names, and the theorem `ran-run` answer for any number here, and an enum would ask more of their callers.
#[derive(Clone, Copy)]
pub struct Counts {
    pub kind: u8,
    pub nodes: usize,
    pub rules: usize,
    pub connections: usize,
    pub offered: usize,
}

// What a frame comes to: it is taken and prints so many bytes, or the run is refused.
pub type Step = Result<(Counts, usize), Refusal>;

// What a line comes to: it is taken and prints so many bytes, or the run breaks off with so many bytes of a refusal.
pub type Printed = ControlFlow<usize, (Counts, usize)>;

// "Kinds never go down, but 05 and 06 may follow 06."
fn in_order(last: u8, kind: u8) -> bool
    ensures { result ≡ in_order last kind }
{
    if last <= kind {
        return true;
    }
    if last == END_KIND {
        return kind == WORDS_KIND;
    }
    false
}

// What a frame comes to: its first byte decides its kind. Document 01 asks for one match on this byte, so no enum stands between.
fn frame_step(counts: Counts, line: u64, kind: u8, bytes: &[u8], store: &mut Store) -> Step
    requires { Running counts store.old }
    ensures { FrameStep counts line kind bytes.now store.old result store.new }
{
    if !in_order(counts.kind, kind) {
        return Err(Refusal::NoEntry);
    }
    match kind {
        NODE_KIND => node_step(counts, bytes, store),
        RULE_KIND => rule_step(counts, bytes, store),
        CONNECTION_KIND => connection_step(
            counts,
            bytes,
            &store.nodes,
            &mut store.conns,
            &mut store.classes,
        ),
        QUERY_KIND => query_step(counts, line, bytes, store),
        WORDS_KIND => words_step(counts, bytes, store),
        END_KIND => close_step(counts, bytes, store),
        _ => Err(Refusal::NoEntry),
    }
}

// What a line comes to: refused where it is no line of hexadecimal, else what its frame does. The bytes are lent for what it spells.
fn line_step(counts: Counts, line: u64, digits: &[u8], bytes: &mut [u8], store: &mut Store) -> Step
    requires running { Running counts store.old }
    requires frame_room_in_bounds { frame_room ≤ length bytes.old }
    ensures { LineStep counts line digits.now store.old result store.new }
{
    if !is_line(digits) {
        return Err(Refusal::NoLine);
    }
    put_bytes(digits, bytes);
    let end = digits.len() / 2;
    let kind = bytes[0];
    frame_step(counts, line, kind, &bytes[1..end], store)
}

// One line in, what it prints out: a refusal is printed with its line, and ends the run. `bytes` may be longer than a frame: an array
// would ask more of callers. Counts and store are no struct with `Running` as its invariant: that would be no plainer, since it would
// have to be met behind a refusal too, where nothing is read again, and `finish` takes any counts.
pub fn turn(
    counts: Counts,
    line: u64,
    digits: &[u8],
    bytes: &mut [u8],
    store: &mut Store,
) -> Printed
    requires running { Running counts store.old }
    requires frame_room_in_bounds { frame_room ≤ length bytes.old }
    ensures { LineTurn counts line digits.now store.old result store.new }
{
    match line_step(counts, line, digits, bytes, store) {
        Ok((next, printed)) => ControlFlow::Continue((next, printed)),
        Err(refusal) => {
            let number = u16::from(refusal);
            ControlFlow::Break(put_refusal(&mut store.room, number, line))
        }
    }
}

// The end of the input, with so many bytes behind its last line feed: what is printed then.
pub fn finish(counts: Counts, line: u64, held: usize, room: &mut [u8]) -> usize
    requires { length room.old ≡ text_room }
    ensures value { result ≡ length (end_text counts.kind line held) }
    ensures room_after { room.new ≡ splice room.old 0 (end_text counts.kind line held) }
{
    if held != 0 {
        return put_refusal(room, u16::from(Refusal::NoLine), line);
    }
    if counts.kind == WORDS_KIND {
        return put_refusal(room, u16::from(Refusal::NoEntry), line);
    }
    0
}
