// Lines gathered from input that comes in pieces of any size. A line may lie in several pieces. Of a line that is too long no more
// is kept than tells so: it costs no more memory than another.
#![tactic(auto)]

ghost use Rattle.std.specs.Prelude.{◌≡◌, ◌==◌, ◌+◌, ◌≤◌, length, drop, position};
ghost use Rattle.model.specs.Run.{line_feed};
ghost use Rattle.laws.specs.Area.{splice};
ghost use Rattle.pieces.specs.Line.{kept_limit, up_to_feed, fitting, gathered};

use hex_lines::DIGIT_LIMIT;

// The most bytes of a line that are kept: one more than it may have.
pub const KEPT_LIMIT: usize = DIGIT_LIMIT + 1;

const LINE_FEED: u8 = 10;

// Where a piece is to be read on, how many bytes of the line are held, and whether a line feed has made it whole. The first two are
// needed with a line feed and without, so that an Option around them is no plainer than the flag.
#[derive(Clone, Copy)]
pub struct Gathered {
    pub next: usize,
    pub held: usize,
    pub whole: bool,
}

// Where the first line feed stands.
fn find_feed(bytes: &[u8]) -> Option<usize>
    ensures { result ≡ position (λ b. b == line_feed) bytes.now }
{
    bytes.iter().position(|b| *b == LINE_FEED)
}

// Puts bytes behind those that are held of a line, as far as the line has room, and says how many are held then.
fn keep(more: &[u8], line: &mut [u8], held: usize) -> usize
    requires { (held ≤ kept_limit) × (length line.old ≡ kept_limit) }
    ensures value { result ≡ held + length (fitting held more.now) }
    ensures line_after { line.new ≡ splice line.old held (fitting held more.now) }
{
    let count = more.len().min(KEPT_LIMIT - held);
    let end = held + count;
    line[held..end].copy_from_slice(&more[..count]);
    end
}

// Takes the bytes of a piece from a place on into the line, up to a line feed or the piece's end. Bytes for which the line has no
// room are passed over.
pub fn gather(piece: &[u8], from: usize, line: &mut [u8], held: usize) -> Gathered
    requires { (from ≤ length piece.now) × (held ≤ kept_limit) × (length line.old ≡ kept_limit) }
    ensures value { result ≡ gathered (drop from piece.now) from held }
    ensures line_after { line.new ≡ splice line.old held (fitting held (up_to_feed (drop from piece.now))) }
{
    let rest = &piece[from..];
    match find_feed(rest) {
        Some(at) => Gathered {
            next: from + at + 1,
            held: keep(&rest[..at], line, held),
            whole: true,
        },
        None => Gathered {
            next: piece.len(),
            held: keep(rest, line, held),
            whole: false,
        },
    }
}
