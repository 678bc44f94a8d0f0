// Lines of hexadecimal: whether a line is one, and the bytes that it spells.
#![tactic(auto)]

ghost use Rattle.std.specs.Prelude.{◌≡◌, true, ◌*◌, ◌≤◌, ◌↔◌, length, is_some, IsTrue, EachIndex, slice_index};
ghost use Rattle.model.specs.Frame.{hex_digit, line_bytes};
ghost use Rattle.laws.specs.Area.{splice};
ghost use Rattle.laws.specs.Present.{present};
ghost use Rattle.hex_lines.specs.Line.{value_of, decoded};

// The most digits of a line.
pub const DIGIT_LIMIT: usize = 8192;

// A digit's value: 0 to 9 and a to f, in ASCII.
fn value(b: u8) -> Option<u8>
    ensures { result ≡ value_of (hex_digit b) }
{
    match b {
        b'0'..=b'9' => Some(b - b'0'),
        b'a'..=b'f' => Some(b - b'a' + 10),
        _ => None,
    }
}

// Whether all are digits.
fn are_digits(digits: &[u8]) -> bool
    ensures { IsTrue result ↔ EachIndex digits.now (λ k. IsTrue (is_some (value_of (hex_digit (slice_index digits.now k))))) }
{
    digits.iter().all(|d| value(*d).is_some())
}

// Whether digits are a line: lower-case hex pairs, one or more, and no more digits than a line may have.
pub fn is_line(digits: &[u8]) -> bool
    ensures { result ≡ present (line_bytes digits.now) }
{
    let n = digits.len();
    if n == 0 || n > DIGIT_LIMIT {
        return false;
    }
    if n % 2 != 0 {
        return false;
    }
    are_digits(digits)
}

// Writes the bytes that a line spells before what else stands in the room. They are counted, since of what is written behind an
// adapter of `iter_mut` a proof knows the length alone.
pub fn put_bytes(digits: &[u8], bytes: &mut [u8])
    requires { (present (line_bytes digits.now) ≡ true) × (length digits.now ≤ 2 * length bytes.old) }
    ensures { bytes.new ≡ splice bytes.old 0 (decoded digits.now) }
{
    for (i, pair) in digits.chunks_exact(2).enumerate() {
        let high = value(pair[0]).unwrap();
        let low = value(pair[1]).unwrap();
        bytes[i] = high * 16 + low;
    }
}
