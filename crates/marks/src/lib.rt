// Marks in flat terms: a row is walked in preorder to its first mark (14), and a term to its second, so that one pass tells whether it
// has exactly one mark (15), where that stands and where the term ends. Terms are walked flat, by a pending count: how many terms are
// still to be read.
#![tactic(auto)]

ghost use Rattle.std.specs.Prelude.{◌≡◌};
ghost use Rattle.terms.specs.Place.{Well};
ghost use Rattle.marks.specs.Marks.{HasRow, RestIs, MarkedIs, OneIs};

use model::FLAT_WORDS;

// A row of terms from its first mark on: behind how many nodes it stands, and how many terms are still to be read there. None are
// where the row has no mark. (No Option: a row without a mark has its nodes counted too, since they say where a term ends.)
#[derive(Clone, Copy)]
struct Rest {
    nodes: usize,
    pending: usize,
}

// The row of `count` terms at `at` from its first mark on. (That it is there stays a clause: `one_mark` walks two
// rows that it was not handed, each built from what proves the clause now; `marked` and the checker would hand such a type on once.)
fn to_mark(words: &[u16], at: usize, count: usize) -> Rest
    requires { HasRow words.now at count }
    ensures { RestIs words.now at count result }
{
    let mut nodes: usize = 0;
    let mut pending = count;
    // No range: how many nodes stand before the mark is known there only.
    while 0 < pending {
        let n = terms::node_at(words, at + FLAT_WORDS * nodes);
        if n.mark != 0 {
            return Rest { nodes, pending };
        }
        pending = pending - 1 + usize::from(n.count);
        nodes += 1;
    }
    Rest { nodes, pending }
}

// Whether a row of `count` terms at `at` holds a mark at all.
pub fn marked(words: &[u16], at: usize, count: usize) -> bool
    requires { HasRow words.now at count }
    ensures { MarkedIs words.now at count result }
{
    to_mark(words, at, count).pending != 0
}

// The one mark of a term: behind how many of its nodes it stands, and where the term ends.
#[derive(Clone, Copy)]
pub struct OneMark {
    pub nodes: usize,
    pub end: usize,
}

// The one mark of the term at `at`, if it has exactly one. The walk ends at the second.
pub fn one_mark(words: &[u16], at: usize) -> Option<OneMark>
    requires { Well words.now at }
    ensures { OneIs words.now at result }
{
    let first = to_mark(words, at, 1);
    if first.pending == 0 {
        return None;
    }
    let place = at + FLAT_WORDS * first.nodes;
    let n = terms::node_at(words, place);
    let below = place + FLAT_WORDS;
    let behind = to_mark(words, below, first.pending - 1 + usize::from(n.count));
    if behind.pending != 0 {
        return None;
    }
    Some(OneMark {
        nodes: first.nodes,
        end: below + FLAT_WORDS * behind.nodes,
    })
}
