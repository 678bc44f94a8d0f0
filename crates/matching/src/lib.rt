// Matching: whether some substitution makes a rule's two sides two given subterms, marks aside. A side is read item by item, as
// the rule table hands it out.
#![tactic(auto)]

ghost use Rattle.std.specs.Prelude.{◌≡◌, ◌+◌, ◌≤◌, ◌<◌, length};
ghost use Rattle.model.specs.Limits.{variable_limit, flat_words};
ghost use Rattle.terms.specs.Place.{Well};
ghost use Rattle.rule_table.specs.Slots.{Side};
ghost use Rattle.matching.specs.Match.{span_of, with_span, Valid, Rows, SomeRows, BindIs, op_step, ItemIs, MatchIs, FitIs};

use model::{Bindings, FLAT_WORDS, ITEM_WORDS, OpNo, Span, VARIABLE_LIMIT};
use rule_table::Item;
use terms::TwoTerms;

// Behind an item that fits: where the terms go on, how many terms the item adds to those still to be matched, and what is bound.
#[derive(Clone, Copy)]
struct ItemFit {
    at: usize,
    more: usize,
    bound: Bindings,
}

// What the variable `x` is bound to.
fn span_of(b: Bindings, x: usize) -> Span
    requires { x < variable_limit }
    ensures { result ≡ span_of b x }
{
    b.spans[x]
}

// The bindings with the variable `x` bound to the span `s`.
fn with_span(b: Bindings, x: usize, s: Span) -> Bindings
    requires { x < variable_limit }
    ensures { result ≡ with_span b x s }
{
    let mut c = b;
    c.spans[x] = s;
    c
}

// A variable meets the term at `at`: it is bound to it, or what it is bound to is compared with it, marks aside. (That what is bound is
// valid stays a clause, here and where an item and a side are matched: a type that holds it holds the words too, so that each answer
// would have to say that its words are still the same.)
fn bind(words: &[u16], x: usize, at: usize, b: Bindings) -> Option<ItemFit>
    requires x_lt_variable_limit { x < variable_limit }
    requires valid { Valid words.now b }
    requires well { Well words.now at }
    ensures { BindIs words.now x at b result }
{
    let e = terms::end_of(words, at);
    let s = span_of(b, x);
    let from = s.start;
    if from < s.end {
        let both = TwoTerms {
            words,
            a: from,
            b: at,
        };
        let same = both.same_term();
        if !same {
            return None;
        }
        return Some(ItemFit {
            at: e,
            more: 0,
            bound: b,
        });
    }
    Some(ItemFit {
        at: e,
        more: 0,
        bound: with_span(b, x, Span { start: at, end: e }),
    })
}

// An operator with its child count meets the node at `at`; its children follow.
fn op_step(op: OpNo, count: u16, words: &[u16], at: usize, b: Bindings) -> Option<ItemFit>
    requires { at + flat_words ≤ length words.now }
    ensures { result ≡ op_step words.now op.0 count at b }
{
    let n = terms::node_at(words, at);
    if !terms::same_head(n, op, count) {
        return None;
    }
    Some(ItemFit {
        at: at + FLAT_WORDS,
        more: usize::from(count),
        bound: b,
    })
}

// One item meets the term at `at`. The slots hold patterns, so that a slot which holds no item is never met.
fn item_step(side: &[u16], item: usize, words: &[u16], at: usize, b: Bindings) -> Option<ItemFit>
    requires valid { Valid words.now b }
    requires some_rows { SomeRows side.now item words.now at }
    ensures { ItemIs side.now item words.now at b result }
{
    let held = rule_table::slot_at(side, item)?;
    match held {
        Item::Variable(x) => bind(words, x, at, b),
        Item::Operator(op, count) => op_step(op, count, words, at, b),
    }
}

// Matches `pending` patterns from the item on with as many terms from `at` on, over what is bound already: what is bound then. (Document 01
// asks for this recursion, its items and bindings by value: each of the six changes from call to call but the two tables.)
fn match_side(
    side: &[u16],
    item: usize,
    pending: usize,
    words: &[u16],
    at: usize,
    b: Bindings,
) -> Option<Bindings>
    requires valid { Valid words.now b }
    requires rows { Rows side.now item pending words.now at }
    ensures { MatchIs side.now item pending words.now at b result }
{
    if pending == 0 {
        return Some(b);
    }
    let s = item_step(side, item, words, at, b)?;
    match_side(
        side,
        item + ITEM_WORDS,
        pending - 1 + s.more,
        words,
        s.at,
        s.bound,
    )
}

// Whether some substitution makes the left side the first of two terms and the right side the second. The left side is always
// matched first, so that a variable that stands only there is bound; a backward step exchanges the terms, not the sides.
pub fn rule_fits(left: &[u16], right: &[u16], both: TwoTerms) -> bool
    requires side { Side left.now }
    requires side_2 { Side right.now }
    ensures { FitIs left.now right.now both.entry.words.now both.entry.a both.entry.b result }
{
    let nothing = Span { start: 0, end: 0 };
    let spans = [nothing; VARIABLE_LIMIT];
    let l = match_side(left, 0, 1, both.words, both.a, Bindings { spans: spans });
    let Some(bound) = l else {
        return false;
    };
    let r = match_side(right, 0, 1, both.words, both.b, bound);
    r.is_some()
}
