// Flat terms: four words a node in preorder, which are its operator, child count, mark and rule. Terms can be very deep, so
// they are walked flat, by a pending count: how many terms are still to be read.
#![tactic(auto)]

ghost use Rattle.std.specs.Prelude.{◌≡◌, ◌+◌, ◌*◌, ◌≤◌, length};
ghost use Rattle.model.specs.Limits.{flat_words};
ghost use Rattle.model.specs.Term.{read};
ghost use Rattle.terms.specs.Place.{node_of, ok_node, same_head, same_nodes, Well, EndIs, EndsAt, SameIs};
ghost use Rattle.terms.specs.Whole.{whole_of};

use model::{CHILD_LIMIT, FLAT_WORDS, OpNo, RuleNo};

// A node's four words, as they stand. No Option of a mark: `node_at` reads any words, whose mark may be none of 0, 1 and 2.
#[derive(Clone, Copy)]
pub struct TreeNode {
    pub op: OpNo,
    pub count: u16,
    pub mark: u16,
    pub rule: RuleNo,
}

// The one place where a node's words are read.
pub fn node_at(words: &[u16], at: usize) -> TreeNode
    requires { at + flat_words ≤ length words.now }
    ensures { result ≡ node_of words.now at }
{
    TreeNode {
        op: OpNo(words[at]),
        count: words[at + 1],
        mark: words[at + 2],
        rule: RuleNo(words[at + 3]),
    }
}

// Whether a node's count and mark are in their sets, and no rule stands at an unmarked one.
fn node_ok(n: TreeNode) -> bool
    ensures { result ≡ ok_node n }
{
    if n.count > CHILD_LIMIT {
        return false;
    }
    match n.mark {
        0 => n.rule == RuleNo(0),
        1 | 2 => true,
        _ => false,
    }
}

// Whether a node has this operator and this count.
pub fn same_head(n: TreeNode, op: OpNo, count: u16) -> bool
    ensures { result ≡ same_head n op.0 count }
{
    n.op == op && n.count == count
}

// Where the term at `at` ends, on any words, or that there is none: each node read takes one from the terms still to be read, and
// adds its children.
fn subterm_end(words: &[u16], at: usize) -> Option<usize>
    ensures { EndIs words.now at result }
{
    let len = words.len();
    if len < at {
        return None;
    }
    let mut pos = at;
    let mut pending: usize = 1;
    // No range: how many nodes the term has is known at its end only.
    while 0 < pending {
        if len - pos < FLAT_WORDS {
            return None;
        }
        let n = node_at(words, pos);
        if !node_ok(n) {
            return None;
        }
        pending = pending - 1 + usize::from(n.count);
        pos += FLAT_WORDS;
    }
    Some(pos)
}

// Where a term that is known to be there ends. (That it is there stays a clause here, in `one_mark`, `bind` and `later_fault`: a type of
// one place would be built by each caller, from what proves the clause now; only `bind` and `later_fault` would hand one on, once each.)
pub fn end_of(words: &[u16], at: usize) -> usize
    requires { Well words.now at }
    ensures { EndsAt words.now at result }
{
    subterm_end(words, at).unwrap()
}

// Two terms in the same words.
#[derive(Clone, Copy)]
pub struct TwoTerms<'a> {
    pub words: &'a [u16],
    pub a: usize,
    pub b: usize,
    pub ghost well_a: { ∥ Well words.now a ∥₁ },
    pub ghost well_b: { ∥ Well words.now b ∥₁ },
}

impl<'a> TwoTerms<'a> {
    // The second term, and the first behind it.
    pub fn exchanged(self) -> TwoTerms<'a>
        ensures { (result.words.now ≡ self.entry.words.now) × (result.a ≡ self.entry.b) × (result.b ≡ self.entry.a) }
    {
        TwoTerms {
            words: self.words,
            a: self.b,
            b: self.a,
        }
    }

    // Whether the two are equal, their marks aside: both are walked at once.
    pub fn same_term(self) -> bool
        ensures { SameIs self.entry.words.now self.entry.a self.entry.b result }
    {
        let mut i = self.a;
        let mut j = self.b;
        let mut pending: usize = 1;
        // No range: how many nodes the terms have is known at their ends only.
        while 0 < pending {
            let x = node_at(self.words, i);
            let y = node_at(self.words, j);
            if !same_head(x, y.op, y.count) {
                return false;
            }
            pending = pending - 1 + usize::from(x.count);
            i += FLAT_WORDS;
            j += FLAT_WORDS;
        }
        true
    }
}

// Whether `count` nodes from `i` on agree with as many from `j` on, their marks aside.
pub fn same_nodes(words: &[u16], i: usize, j: usize, count: usize) -> bool
    requires count_in_bounds { i + flat_words * count ≤ length words.now }
    requires count_in_bounds_2 { j + flat_words * count ≤ length words.now }
    ensures { result ≡ same_nodes words.now i j count }
{
    for k in 0..count {
        let x = node_at(words, i + FLAT_WORDS * k);
        let y = node_at(words, j + FLAT_WORDS * k);
        if !same_head(x, y.op, y.count) {
            return false;
        }
    }
    true
}

// How many terms the words are, one behind the other, if they are a whole number.
pub fn whole_terms(words: &[u16]) -> Option<usize>
    ensures { result ≡ whole_of (read words.now) }
{
    let len = words.len();
    let mut pos: usize = 0;
    let mut n: usize = 0;
    // No range: how long each term is is known at its end only.
    while pos < len {
        // By a match and not by `?`: the edit broken_tail_cut_off changes what is returned here.
        pos = match subterm_end(words, pos) {
            Some(end) => end,
            None => return None,
        };
        n += 1;
    }
    Some(n)
}
