// The text of flat terms: one term into a lent room, and each term on a line of its own. Terms can be very deep, so that they are
// written flat: the stack of open brackets stands at the end of the room, where the closing brackets will stand.
#![tactic(auto)]

ghost use Rattle.std.specs.Prelude.{◌≡◌, [], ◌++◌, ◌+◌, ◌-◌, ◌≤◌, ◌<◌, length, take, drop, replicate};
ghost use Rattle.model.specs.Limits.{child_limit};
ghost use Rattle.model.specs.Text.{term_text, room_after};
ghost use Rattle.laws.specs.Area.{splice};
ghost use Rattle.text.specs.Lines.{lines_of, SayTerms, SayTerm};
ghost use Rattle.text.specs.Nodes.{mark_by, mark_head, bracket, head_of, pushed, opened, node_len, text_len, fit_of, Fine};
ghost use Rattle.text.specs.Writing.{shut, space, less, Ready, emit, Holds};

use letters::{Pen, number_len, put};
use model::{FLAT_WORDS, Printed, Refusal, RuleNo};
use terms::{TreeNode, end_of, node_at, whole_terms};

// How far a text is written, and where the stack of open brackets starts: two places of one room, which stays beside them, lent from
// call to call.
#[derive(Clone, Copy)]
struct Ends {
    at: usize,
    top: usize,
}

// What a mark has besides its rule's digits: `(Rewrite=> r`, a space, and the closing bracket.
const MARK_BYTES: usize = 14;

// How many bytes a mark has.
fn mark_len(mark: u16, rule: RuleNo) -> usize
    ensures { result ≡ length (mark_head mark rule.0) + length (pushed mark 0) }
{
    match mark {
        0 => 0,
        _ => MARK_BYTES + number_len(u64::from(rule.0)),
    }
}

// How many bytes a node has, the space before it aside: mark, letter and digits, and two brackets around children.
fn node_len(n: TreeNode) -> usize
    ensures { result ≡ node_len n.op.0 n.count n.mark n.rule.0 }
{
    let bare = mark_len(n.mark, n.rule) + 1 + number_len(u64::from(n.op.0));
    if n.count == 0 {
        return bare;
    }
    bare + 2
}

// How many bytes the text of a term has, if they are within a limit. What is left of the limit falls, so that no sum wraps.
fn text_len(words: &[u16], limit: usize) -> Option<usize>
    requires { Fine words.now }
    ensures { result ≡ fit_of (text_len 0 words.now) limit }
{
    let mut used: usize = 0;
    let mut before: usize = 0;
    for i in 0..words.len() / FLAT_WORDS {
        let n = before + node_len(node_at(words, FLAT_WORDS * i));
        if limit - used < n {
            return None;
        }
        used += n;
        before = 1;
    }
    Some(used)
}

// Sets every byte from a place on. (`clear_from` of crate trees is the same of words. Each is one call of the library's `fill`; one
// generic function would ask its callers for a proof that a clone of its type does not fail, and be no plainer.)
fn fill_from(room: &mut [u8], at: usize, byte: u8)
    requires { at ≤ length room.old }
    ensures { room.new ≡ take at room.old ++ replicate (length room.old - at) byte }
{
    room[at..].fill(byte);
}

// Puts a mark's name and its rule, to be followed by the marked node.
fn write_marked(pen: &mut Pen, name: &[u8], rule: RuleNo)
    requires { pen.old.at + length (mark_by name.now rule.0) ≤ length pen.old.room.now }
    ensures same_reference { pen.new.room.ghost_name ≡ pen.old.room.ghost_name }
    ensures at_after { pen.new.at ≡ pen.old.at + length (mark_by name.now rule.0) }
    ensures room_after { pen.new.room.now ≡ splice pen.old.room.now pen.old.at (mark_by name.now rule.0) }
{
    pen.put(b"(");
    pen.put(name);
    pen.put(b" r");
    pen.put_number(u64::from(rule.0));
    pen.put(b" ");
}

// Puts what stands before a node by its mark.
fn write_mark(pen: &mut Pen, mark: u16, rule: RuleNo)
    requires { pen.old.at + length (mark_head mark rule.0) ≤ length pen.old.room.now }
    ensures same_reference { pen.new.room.ghost_name ≡ pen.old.room.ghost_name }
    ensures at_after { pen.new.at ≡ pen.old.at + length (mark_head mark rule.0) }
    ensures room_after { pen.new.room.now ≡ splice pen.old.room.now pen.old.at (mark_head mark rule.0) }
{
    match mark {
        0 => {}
        1 => write_marked(pen, b"Rewrite=>", rule),
        _ => write_marked(pen, b"Rewrite<=", rule),
    }
}

// Puts the bracket of a node with children.
fn write_bracket(pen: &mut Pen, count: u16)
    requires { pen.old.at + length (bracket count) ≤ length pen.old.room.now }
    ensures same_reference { pen.new.room.ghost_name ≡ pen.old.room.ghost_name }
    ensures at_after { pen.new.at ≡ pen.old.at + length (bracket count) }
    ensures room_after { pen.new.room.now ≡ splice pen.old.room.now pen.old.at (bracket count) }
{
    if count != 0 {
        pen.put(b"(");
    }
}

// Puts what a node has before its children.
fn write_head(pen: &mut Pen, n: TreeNode)
    requires { pen.old.at + length (head_of n) ≤ length pen.old.room.now }
    ensures same_reference { pen.new.room.ghost_name ≡ pen.old.room.ghost_name }
    ensures at_after { pen.new.at ≡ pen.old.at + length (head_of n) }
    ensures room_after { pen.new.room.now ≡ splice pen.old.room.now pen.old.at (head_of n) }
{
    write_mark(pen, n.mark, n.rule);
    write_bracket(pen, n.count);
    pen.put(b"o");
    pen.put_number(u64::from(n.op.0));
}

// The same from a place of a room on.
fn put_head(room: &mut [u8], at: usize, n: TreeNode) -> usize
    requires { at + length (head_of n) ≤ length room.old }
    ensures value { result ≡ at + length (head_of n) }
    ensures room_after { room.new ≡ splice room.old at (head_of n) }
{
    let mut pen = Pen { room, at };
    write_head(&mut pen, n);
    pen.at
}

// Pushes a bracket where one was opened, with the count of terms to come before it closes; the stack grows down. (`opens` is a mark's word
// or a count: each opens a bracket where it is not 0.)
fn push(room: &mut [u8], top: usize, opens: u16, count: u16) -> usize
    requires { (length (pushed opens count) ≤ top) × (top ≤ length room.old) × (count ≤ child_limit) }
    ensures count_value { result + length (pushed opens count) ≡ top }
    ensures room_after { room.new ≡ splice room.old result (pushed opens count) }
{
    match opens {
        0 => top,
        _ => {
            room[top - 1] = count as u8;
            top - 1
        }
    }
}

// Closes each bracket on top of the stack that has no term to come, and returns how many. A closing bracket is never written past
// the entry that it closes.
fn close(room: &mut [u8], at: usize, top: usize) -> usize
    requires { (at ≤ top) × (top ≤ length room.old) }
    ensures value { result ≡ length (shut (drop top room.old)) }
    ensures room_after { room.new ≡ splice room.old at (shut (drop top room.old)) }
{
    let n = room.len() - top;
    for i in 0..n {
        if room[top + i] != 0 {
            return i;
        }
        room[at + i] = b')';
    }
    n
}

// A term inside a bracket has a space before it, and is no longer to come.
fn next_term(room: &mut [u8], at: usize, top: usize) -> usize
    requires { (at + length (space (drop top room.old)) ≤ top) × (top ≤ length room.old) × Ready (drop top room.old) }
    ensures value { result ≡ at + length (space (drop top room.old)) }
    ensures room_after { room.new ≡ splice (splice room.old top (less (drop top room.old))) at (space (drop top room.old)) }
{
    if top < room.len() {
        room[top] = room[top] - 1;
        return put(room, at, b" ");
    }
    at
}

// Writes a node up to its children, and pushes its brackets.
fn open_node(room: &mut [u8], at: usize, top: usize, n: TreeNode) -> Ends
    requires at_le_top { (at ≤ top) × (top ≤ length room.old) × Ready (drop top room.old) × (n.count ≤ child_limit) }
    requires room_in_bounds { at + length (space (drop top room.old)) + length (head_of n) + length (opened n.count n.mark (less (drop top room.old))) ≤ length room.old }
    ensures { Holds room.new result.at result.top (take at room.old ++ (space (drop top room.old) ++ head_of n)) (opened n.count n.mark (less (drop top room.old))) }
{
    let begun = next_term(room, at, top);
    let outer = push(room, top, n.mark, 0);
    let inner = push(room, outer, n.count, n.count);
    let end = put_head(room, begun, n);
    Ends {
        at: end,
        top: inner,
    }
}

// Writes the text of one term into a room of just its length: node by node, and in the end the brackets that are still open.
fn write_term(words: &[u16], room: &mut [u8])
    requires { Fine words.now × (length room.old ≡ length (emit words.now [])) }
    ensures { room.new ≡ emit words.now [] }
{
    let mut at: usize = 0;
    let mut top = room.len();
    for i in 0..words.len() / FLAT_WORDS {
        let closed = close(room, at, top);
        let node = node_at(words, FLAT_WORDS * i);
        let ends = open_node(room, at + closed, top + closed, node);
        at = ends.at;
        top = ends.top;
    }
    fill_from(room, at, b')');
}

// The text of words that say one term, if it fits the room; behind it the room is zero.
fn print_term(words: &[u16], room: &mut [u8]) -> Printed
    requires { SayTerm words.now }
    ensures value { result ≡ term_text words.now (length room.old) }
    ensures room_after { room.new ≡ room_after words.now (length room.old) }
{
    let Some(n) = text_len(words, room.len()) else {
        return refuse(room, Refusal::NoRoom);
    };
    write_term(words, &mut room[..n]);
    fill_from(room, n, 0);
    Ok(n)
}

// Refuses: the room is all zero.
fn refuse(room: &mut [u8], refusal: Refusal) -> Printed
    ensures value { result ≡ Err refusal }
    ensures room_after { room.new ≡ replicate (length room.old) 0 }
{
    fill_from(room, 0, 0);
    Err(refusal)
}

// The text of one term: the bytes written, or the refusal. Behind a written text the room is zero, and after a refusal all of it,
// whatever it held.
pub fn term_text(words: &[u16], room: &mut [u8]) -> Printed
    ensures value { result ≡ term_text words.now (length room.old) }
    ensures room_after { room.new ≡ room_after words.now (length room.old) }
{
    match whole_terms(words) {
        Some(0) => refuse(room, Refusal::NoWords),
        Some(1) => print_term(words, room),
        _ => refuse(room, Refusal::NoTerms),
    }
}

// Puts one term on a line of its own. Its bytes fit.
fn put_line(words: &[u16], room: &mut [u8], at: usize) -> usize
    requires { SayTerm words.now × (at + length (lines_of words.now) ≤ length room.old) }
    ensures value { result ≡ at + length (lines_of words.now) }
    ensures room_after { room.new ≡ splice room.old at (lines_of words.now) }
{
    let end = at + text_len(words, room.len()).unwrap();
    write_term(words, &mut room[at..end]);
    put(room, end, b"\n")
}

// Puts each term on a line of its own.
pub fn put_lines(words: &[u16], room: &mut [u8], at: usize) -> usize
    requires { SayTerms words.now × (at + length (lines_of words.now) ≤ length room.old) }
    ensures value { result ≡ at + length (lines_of words.now) }
    ensures room_after { room.new ≡ splice room.old at (lines_of words.now) }
{
    let mut end = at;
    let mut pos: usize = 0;
    // No range: how long each term is is known at its end only.
    while pos < words.len() {
        let next = end_of(words, pos);
        end = put_line(&words[pos..next], room, end);
        pos = next;
    }
    end
}
