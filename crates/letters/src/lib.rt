// Bytes of a text put into a lent room: byte strings, and numbers in decimal digits. No Display: what is put here fits, by what it asks,
// and can't fail. A digit is narrowed by `as`, since it is below 10.
#![tactic(auto)]

ghost use Rattle.std.specs.Prelude.{◌≡◌, ◌+◌, ◌≤◌, length};
ghost use Rattle.model.specs.Text.{digits};
ghost use Rattle.laws.specs.Area.{splice};

// A lent room, and how far it is written.
#[derive(Drop)]
pub struct Pen<'a> {
    pub room: &'a mut [u8],
    pub at: usize,
}

impl Pen<'_> {
    // Puts bytes into the room.
    pub fn put(&mut self, bytes: &[u8])
        requires { self.old.at + length bytes.now ≤ length self.old.room.now }
        ensures same_reference { self.new.room.ghost_name ≡ self.old.room.ghost_name }
        ensures at_after { self.new.at ≡ self.old.at + length bytes.now }
        ensures room_after { self.new.room.now ≡ splice self.old.room.now self.old.at bytes.now }
    {
        let end = self.at + bytes.len();
        self.room[self.at..end].copy_from_slice(bytes);
        self.at = end;
    }

    // Puts a number's digits into the room: the first of them, then the last. A number of 64 bits has at most 20 digits, so that the
    // calls nest no deeper.
    pub fn put_number(&mut self, n: u64)
        requires { self.old.at + length (digits n) ≤ length self.old.room.now }
        ensures same_reference { self.new.room.ghost_name ≡ self.old.room.ghost_name }
        ensures at_after { self.new.at ≡ self.old.at + length (digits n) }
        ensures room_after { self.new.room.now ≡ splice self.old.room.now self.old.at (digits n) }
    {
        if n < 10 {
            self.room[self.at] = b'0' + n as u8;
            self.at += 1;
            return;
        }
        self.put_number(n / 10);
        self.room[self.at] = b'0' + (n % 10) as u8;
        self.at += 1;
    }
}

// Puts one piece alone into a room from a place on, and returns where it ends.
pub fn put(room: &mut [u8], at: usize, bytes: &[u8]) -> usize
    requires { at + length bytes.now ≤ length room.old }
    ensures value { result ≡ at + length bytes.now }
    ensures room_after { room.new ≡ splice room.old at bytes.now }
{
    let mut pen = Pen { room, at };
    pen.put(bytes);
    pen.at
}

// How many digits a number has.
pub fn number_len(n: u64) -> usize
    ensures { result ≡ length (digits n) }
{
    let mut left = n;
    let mut len: usize = 1;
    // No range: how many digits a number has is known at its last one only. (The library's ilog10 speaks of powers of ten, not of digits.)
    while 10 <= left {
        left = left / 10;
        len += 1;
    }
    len
}
