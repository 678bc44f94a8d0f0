// The sides of a rule's frame: items read one by one, each by its first byte; a side found by pending counts, and its items' words written.
ghost use Rattle.std.specs.Prelude.{◌≡◌, ◌+◌, ◌*◌, ◌≤◌, length, drop};
ghost use Rattle.model.specs.Tables.{item_words};
ghost use Rattle.laws.specs.Area.{splice};
ghost use Rattle.layouts.specs.Words.{slots_of};
ghost use Rattle.decode.specs.Sides.{part_of, side_found, side_of, items_of, HasItems};

use super::word_at;
use model::{CHILD_LIMIT, ITEM_LIMIT, ITEM_WORDS, VARIABLE_LIMIT};

// An item of a rule's frame: how many bytes it has, and its three words. No enum: the words go into the slot as they are, and an enum
// would be made of them and turned back into them.
#[derive(Clone, Copy)]
pub struct Part {
    pub size: usize,
    pub kind: u16,
    pub field: u16,
    pub count: u16,
}

// The item that starts at a place, by its first byte, if one starts there.
fn part_at(bytes: &[u8], at: usize) -> Option<Part>
    requires { at ≤ length bytes.now }
    ensures { result ≡ part_of (drop at bytes.now) }
{
    let left = bytes.len() - at;
    if left == 0 {
        return None;
    }
    let kind = bytes[at];
    match kind {
        0 => {
            if left < 2 {
                return None;
            }
            let field = u16::from(bytes[at + 1]);
            if usize::from(field) < VARIABLE_LIMIT {
                return Some(Part {
                    size: 2,
                    kind: 0,
                    field,
                    count: 0,
                });
            }
            None
        }
        1 => {
            if left < 4 {
                return None;
            }
            let count = u16::from(bytes[at + 3]);
            if count <= CHILD_LIMIT {
                return Some(Part {
                    size: 4,
                    kind: 1,
                    field: word_at(bytes, at + 1),
                    count,
                });
            }
            None
        }
        _ => None,
    }
}

// How many items the side that starts at a place has, and where they end: each item that is read takes one from the patterns still
// to be read, and adds its children.
pub fn side_at(bytes: &[u8], at: usize) -> Option<(usize, usize)>
    requires { at ≤ length bytes.now }
    ensures { result ≡ side_of (length bytes.now) (side_found bytes.now at) }
{
    let mut pos = at;
    let mut n: usize = 0;
    let mut pending: usize = 1;
    // No range: how many items a side has is known at its end only.
    while 0 < pending {
        if n >= ITEM_LIMIT {
            return None;
        }
        let part = part_at(bytes, pos)?;
        pos += part.size;
        pending = pending - 1 + usize::from(part.count);
        n += 1;
    }
    Some((n, pos))
}

// Writes the words of a side's items from a place of the slot on.
pub fn put_items(bytes: &[u8], at: usize, items: usize, slot: &mut [u16], place: usize)
    requires { (at ≤ length bytes.now) × HasItems bytes.now at items × (place + item_words * items ≤ length slot.old) }
    ensures { slot.new ≡ splice slot.old place (slots_of (items_of (side_found bytes.now at))) }
{
    let mut pos = at;
    for k in 0..items {
        let part = part_at(bytes, pos).unwrap();
        let to = place + ITEM_WORDS * k;
        slot[to] = part.kind;
        slot[to + 1] = part.field;
        slot[to + 2] = part.count;
        pos += part.size;
    }
}
