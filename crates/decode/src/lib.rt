// A frame's bytes, behind the byte of its kind, turned into what it says: an entry written into a slot of its table, a pair of nodes,
// or the words of an offered proof. A frame that says none of its kind leaves the slot as it was.
// Numbers are narrowed by `as` where a limit is proved: a TryFrom would be unwrapped each time.
#![tactic(auto)]

mod sides;

ghost use Rattle.std.specs.Prelude.{◌≡◌, ◌+◌, ◌≤◌, ◌<◌, length, get_or, replicate};
ghost use Rattle.std.proofs.Math.Option.{some};
ghost use Rattle.model.specs.Limits.{flat_words};
ghost use Rattle.model.specs.Tables.{node_words, rule_words, connection_words, why_of};
ghost use Rattle.model.specs.Frame.{two, node_frame, rule_frame, connection_frame, query_frame, words_frame};
ghost use Rattle.laws.specs.Area.{splice};
ghost use Rattle.layouts.specs.Words.{words_of_node, words_of_rule, words_of_connection};
ghost use Rattle.laws.specs.Present.{present};
ghost use Rattle.decode.specs.Slot.{slot_by};
ghost use Rattle.decode.specs.Sides.{side_found, items_of, TwoSides, rule_slot};
ghost use Rattle.decode.specs.Asked.{pair_of, offered_of, Holds, six_words};

use model::{
    BY_RULE_AT, CHILD_LIMIT, CHILDREN_AT, COUNT_AT, FLAT_WORDS, FORWARD_AT, LEFT_AT, NEXT_AT,
    NodeNo, RIGHT_AT, WHY_AT,
};
use sides::{put_items, side_at};

// How many bytes a node's frame has before its children, a connection's, a query's, and a node of an offered proof.
const NODE_HEAD: usize = 3;

const CONNECTION_BYTES: usize = 8;

const QUERY_BYTES: usize = 4;

const SIX_BYTES: usize = 6;

// The one place where two bytes are read as a word: "high byte first".
fn word_at(bytes: &[u8], at: usize) -> u16
    requires { at + 1 < length bytes.now }
    ensures { result ≡ two (get_or bytes.now at 0) (get_or bytes.now (at + 1) 0) }
{
    u16::from_be_bytes([bytes[at], bytes[at + 1]])
}

// The same, or zero behind the end.
fn child_at(bytes: &[u8], at: usize) -> u16
    requires { at < length bytes.now → at + 1 < length bytes.now }
    ensures { result ≡ two (get_or bytes.now at 0) (get_or bytes.now (at + 1) 0) }
{
    if at < bytes.len() {
        word_at(bytes, at)
    } else {
        0
    }
}

// 01: a node. Slots that its count leaves unused are zero.
pub fn put_node(bytes: &[u8], slot: &mut [u16]) -> bool
    requires { length slot.old ≡ node_words }
    ensures value { result ≡ present (node_frame bytes.now) }
    ensures slot_after { slot.new ≡ slot_by words_of_node slot.old (node_frame bytes.now) }
{
    let n = bytes.len();
    if n < NODE_HEAD {
        return false;
    }
    let count = u16::from(bytes[2]);
    if count > CHILD_LIMIT {
        return false;
    }
    if n != NODE_HEAD + 2 * usize::from(count) {
        return false;
    }
    slot[0] = word_at(bytes, 0);
    slot[COUNT_AT] = count;
    for k in CHILDREN_AT..slot.len() {
        slot[k] = child_at(bytes, NODE_HEAD + 2 * (k - CHILDREN_AT));
    }
    true
}

// Writes a rule's words: its number, how many items each side has, and the items; slots that its counts leave unused are zero.
fn write_rule(bytes: &[u8], left: usize, middle: usize, right: usize, slot: &mut [u16])
    requires { TwoSides bytes.now left middle right × (length slot.old ≡ rule_words) }
    ensures { slot.new ≡ rule_slot (two (get_or bytes.now 0 0) (get_or bytes.now 1 0)) (items_of (side_found bytes.now 2)) (items_of (side_found bytes.now middle)) }
{
    slot.fill(0);
    slot[0] = word_at(bytes, 0);
    slot[1] = left as u16;
    slot[2] = right as u16;
    put_items(bytes, 2, left, slot, LEFT_AT);
    put_items(bytes, middle, right, slot, RIGHT_AT);
}

// 02: a rule. Its two sides are found before anything is written.
pub fn put_rule(bytes: &[u8], slot: &mut [u16]) -> bool
    requires { length slot.old ≡ rule_words }
    ensures value { result ≡ present (rule_frame bytes.now) }
    ensures slot_after { slot.new ≡ slot_by words_of_rule slot.old (rule_frame bytes.now) }
{
    let n = bytes.len();
    if n < 2 {
        return false;
    }
    let Some((left, middle)) = side_at(bytes, 2) else {
        return false;
    };
    let Some((right, end)) = side_at(bytes, middle) else {
        return false;
    };
    if end != n {
        return false;
    }
    write_rule(bytes, left, middle, right, slot);
    true
}

// Whether a connection's last three fields are in their sets, by the kind: 0 congruence, 1 rule; rule and forward both 0 for
// congruence. (It judges bytes before a word is written, and `connections::entry_whole` judges words. One function for both would stand
// in a crate under both that has `present`: laws, which has no code.)
fn why_fits(kind: u8, rule: u16, forward: u8) -> bool
    ensures { result ≡ present (why_of kind rule forward) }
{
    match kind {
        0 => rule == 0 && forward == 0,
        1 => forward <= 1,
        _ => false,
    }
}

// 03: a connection.
pub fn put_connection(bytes: &[u8], slot: &mut [u16]) -> bool
    requires { length slot.old ≡ connection_words }
    ensures value { result ≡ present (connection_frame bytes.now) }
    ensures slot_after { slot.new ≡ slot_by words_of_connection slot.old (connection_frame bytes.now) }
{
    if bytes.len() != CONNECTION_BYTES {
        return false;
    }
    let rule = word_at(bytes, 5);
    if !why_fits(bytes[4], rule, bytes[7]) {
        return false;
    }
    slot[0] = word_at(bytes, 0);
    slot[NEXT_AT] = word_at(bytes, 2);
    slot[WHY_AT] = u16::from(bytes[4]);
    slot[BY_RULE_AT] = rule;
    slot[FORWARD_AT] = u16::from(bytes[7]);
    true
}

// 04: a query, the pair of nodes that it names.
pub fn pair_of(bytes: &[u8]) -> Option<(NodeNo, NodeNo)>
    ensures { result ≡ pair_of (query_frame bytes.now) }
{
    if bytes.len() != QUERY_BYTES {
        return None;
    }
    Some((NodeNo(word_at(bytes, 0)), NodeNo(word_at(bytes, 2))))
}

// 05: how many words of an offered proof, one or more nodes of six bytes; four words each.
pub fn words_in(bytes: &[u8]) -> Option<usize>
    ensures { result ≡ offered_of (words_frame bytes.now) }
{
    let n = bytes.len();
    if n == 0 {
        return None;
    }
    if n % SIX_BYTES != 0 {
        return None;
    }
    Some(n / SIX_BYTES * FLAT_WORDS)
}

// The four words of the six bytes from `i` on, to a place of the area.
fn put_six(bytes: &[u8], i: usize, area: &mut [u16], j: usize)
    requires { (i + 6 ≤ length bytes.now) × (j + flat_words ≤ length area.old) }
    ensures { area.new ≡ splice area.old j (six_words bytes.now i) }
{
    area[j] = word_at(bytes, i);
    area[j + 1] = u16::from(bytes[i + 2]);
    area[j + 2] = u16::from(bytes[i + 3]);
    area[j + 3] = word_at(bytes, i + 4);
}

// And these words, into just as many.
pub fn put_words(bytes: &[u8], area: &mut [u16])
    requires { Holds bytes.now (length area.old) }
    ensures { words_frame bytes.now ≡ some area.new }
{
    for k in 0..area.len() / FLAT_WORDS {
        put_six(bytes, SIX_BYTES * k, area, FLAT_WORDS * k);
    }
}
