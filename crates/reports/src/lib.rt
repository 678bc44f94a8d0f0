// What the program prints beside terms: a refusal with its line, a verdict, a distance; each put at the front of a room.
#![tactic(auto)]

ghost use Rattle.std.specs.Prelude.{ℕ, ◌≡◌, ◌++◌, ◌+◌, ◌≤◌, length};
ghost use Rattle.model.specs.Refusal.{number};
ghost use Rattle.model.specs.Run.{refusal_text};
ghost use Rattle.model.specs.Text.{digits};
ghost use Rattle.laws.specs.Area.{splice};
ghost use Rattle.reports.specs.Reports.{number_room, report_room, one_field, two_fields, distance_text, rejection_text, told_text};

use letters::Pen;
use model::Rejection;

// Room enough for each of them, whatever the numbers.
pub const REPORT_ROOM: usize = 64;

// A name and a number.
fn field(pen: &mut Pen, a: &[u8], n: u64)
    requires { pen.old.at + (length a.now + number_room) ≤ length pen.old.room.now }
    ensures same_reference { pen.new.room.ghost_name ≡ pen.old.room.ghost_name }
    ensures at_after { pen.new.at ≡ pen.old.at + length (a.now ++ digits n) }
    ensures room_after { pen.new.room.now ≡ splice pen.old.room.now pen.old.at (a.now ++ digits n) }
{
    pen.put(a);
    pen.put_number(n);
}

// One field and a line feed.
fn one(pen: &mut Pen, a: &[u8], n: u64)
    requires { pen.old.at + (length a.now + number_room + 1) ≤ length pen.old.room.now }
    ensures same_reference { pen.new.room.ghost_name ≡ pen.old.room.ghost_name }
    ensures at_after { pen.new.at ≡ pen.old.at + length (one_field a.now n) }
    ensures room_after { pen.new.room.now ≡ splice pen.old.room.now pen.old.at (one_field a.now n) }
{
    field(pen, a, n);
    pen.put(b"\n");
}

// Two fields and a line feed.
fn two(pen: &mut Pen, a: &[u8], n: u64, b: &[u8], m: u64)
    requires { pen.old.at + (length a.now + number_room + (length b.now + number_room) + 1) ≤ length pen.old.room.now }
    ensures same_reference { pen.new.room.ghost_name ≡ pen.old.room.ghost_name }
    ensures at_after { pen.new.at ≡ pen.old.at + length (two_fields a.now n b.now m) }
    ensures room_after { pen.new.room.now ≡ splice pen.old.room.now pen.old.at (two_fields a.now n b.now m) }
{
    field(pen, a, n);
    field(pen, b, m);
    pen.put(b"\n");
}

// The same at the front of a room.
fn put_one(room: &mut [u8], a: &[u8], n: u64) -> usize
    requires { length a.now + number_room + 1 ≤ length room.old }
    ensures value { result ≡ length (one_field a.now n) }
    ensures room_after { room.new ≡ splice room.old 0 (one_field a.now n) }
{
    let mut pen = Pen { room, at: 0 };
    one(&mut pen, a, n);
    pen.at
}

fn put_two(room: &mut [u8], a: &[u8], n: u64, b: &[u8], m: u64) -> usize
    requires { length a.now + number_room + (length b.now + number_room) + 1 ≤ length room.old }
    ensures value { result ≡ length (two_fields a.now n b.now m) }
    ensures room_after { room.new ≡ splice room.old 0 (two_fields a.now n b.now m) }
{
    let mut pen = Pen { room, at: 0 };
    two(&mut pen, a, n, b, m);
    pen.at
}

// `refused N line L`
pub fn put_refusal(room: &mut [u8], number: u16, line: u64) -> usize
    requires { report_room ≤ length room.old }
    ensures value { result ≡ length (refusal_text number line) }
    ensures room_after { room.new ≡ splice room.old 0 (refusal_text number line) }
{
    put_two(room, b"refused ", u64::from(number), b" line ", line)
}

// `rejected N term K`, for any number, as `put_refusal` is.
pub fn put_rejection(room: &mut [u8], number: u16, place: usize) -> usize
    requires { report_room ≤ length room.old }
    ensures value { result ≡ length (rejection_text number place) }
    ensures room_after { room.new ≡ splice room.old 0 (rejection_text number place) }
{
    let n = u64::from(number);
    put_two(room, b"rejected ", n, b" term ", place as u64)
}

// What refuses a proof, as it is told: by which number, and at which term.
pub trait Told: Copy {
    ghost told_number: { Self → ℕ };

    ghost told_place: { Self → ℕ };

    fn told(self) -> (u16, usize)
        ensures { (result.0 ≡ told_number self) × (result.1 ≡ told_place self) };
}

impl Told for Rejection {
    ghost told_number = { λ r. number r.refusal };

    ghost told_place = { λ r. r.place };

    fn told(self) -> (u16, usize) {
        (u16::from(self.refusal), self.place)
    }
}

// Any number is told with its place, a refusal's or not.
impl Told for (u16, usize) {
    ghost told_number = { λ p. p.0 };

    ghost told_place = { λ p. p.1 };

    fn told(self) -> (u16, usize) {
        self
    }
}

// `accepted T` (terms) or `rejected N term K`
pub fn put_verdict<R: Told>(room: &mut [u8], verdict: Result<usize, R>) -> usize
    requires { report_room ≤ length room.old }
    ensures value { result ≡ length (told_text R.told_number R.told_place verdict) }
    ensures room_after { room.new ≡ splice room.old 0 (told_text R.told_number R.told_place verdict) }
{
    match verdict {
        Ok(terms) => put_one(room, b"accepted ", terms as u64),
        Err(rejection) => {
            let (number, place) = rejection.told();
            put_rejection(room, number, place)
        }
    }
}

// `distance D`
pub fn put_distance(room: &mut [u8], distance: usize) -> usize
    requires { report_room ≤ length room.old }
    ensures value { result ≡ length (distance_text distance) }
    ensures room_after { room.new ≡ splice room.old 0 (distance_text distance) }
{
    put_one(room, b"distance ", distance as u64)
}
