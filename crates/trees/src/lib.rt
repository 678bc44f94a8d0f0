// What is written of one term: a node's tree, the last term with another subterm, words cleared; and how many nodes each node's
// tree has, held at a cap, since trees of g(x, x) double with each node.
// A term is written behind the last one, from whose words it is copied without their marks, but for one subterm. Where that
// stands is known by lengths alone, so that nothing is searched.
// Numbers are narrowed by `as` where a limit is proved: a TryFrom would be unwrapped each time.
#![tactic(auto)]

ghost use Rattle.std.specs.Prelude.{◌≡◌, [], ◌∷◌, ◌++◌, ◌+◌, ◌-◌, ◌*◌, ◌/◌, ◌<◌, ◌≤◌, length, get_or, take, drop, replicate, Option, Some, None};
ghost use Rattle.model.specs.Limits.{node_limit, child_limit, flat_words};
ghost use Rattle.model.specs.Term.{one, words, marked, mark_word, rule_word};
ghost use Rattle.model.specs.Node.{term_of};
ghost use Rattle.model.specs.Flat.{sum, size_of, turned, walked, marked_term};
ghost use Rattle.model.specs.Tables.{node_words};
ghost use Rattle.entries.specs.Nodes.{nodes_of, KnownIn, children_in};
ghost use Rattle.laws.specs.Area.{splice, part};
ghost use Rattle.trees.specs.Area.{WholeNodes, bare, root_in, mark_of};
ghost use Rattle.trees.specs.Sizes.{held_nodes, table_bound, filled_sizes};

use model::{Direction, FLAT_WORDS, NODE_LIMIT, NODE_WORDS, NodeNo, OpNo, RuleNo, WORD_LIMIT};
use nodes::{Nodes, child_of, count_of, operator_of};
use terms::{TreeNode, node_at};

// The first number of nodes whose words are past the limit: what is above is held here.
pub const NODE_CAP: usize = WORD_LIMIT / FLAT_WORDS + 1;

// A subterm of the last term: how many words stand before it and behind it, and where that term ends.
#[derive(Clone, Copy)]
pub struct Spot {
    pub place: usize,
    pub post: usize,
    pub end: usize,
}

// A node's mark: the rule, and which way round it was applied.
#[derive(Clone, Copy, PartialEq, Eq)]
pub struct Mark {
    pub direction: Direction,
    pub rule: RuleNo,
}

// A number of nodes, held at the cap.
pub fn held(x: usize) -> usize
    ensures { result ≡ held_nodes x }
{
    x.min(NODE_CAP)
}

// A number of a table as a count: sums of a few of them never wrap. A cast, since usize is From<u16> and no wider.
fn wide_number(x: u32) -> usize
    ensures { (result ≡ x) × (result < table_bound) }
{
    x as usize
}

// What stands in a table of numbers: an array of the tables' limit and no vector, by a rule of the project (no heap, fixed memory).
pub fn amount(table: &[u32; NODE_LIMIT], i: usize) -> usize
    requires { i < node_limit }
    ensures { (result ≡ get_or table.now i 0) × (result < table_bound) }
{
    wide_number(table[i])
}

// How many nodes a node's tree has, by the table.
pub fn size_of(sizes: &[u32; NODE_LIMIT], n: NodeNo) -> usize
    requires { n.0 < node_limit }
    ensures { (result ≡ get_or sizes.now n.0 0) × (result < table_bound) }
{
    amount(sizes, usize::from(n.0))
}

// How many words a node's tree has.
pub fn words_of(sizes: &[u32; NODE_LIMIT], n: NodeNo) -> usize
    requires { n.0 < node_limit }
    ensures { result ≡ flat_words * get_or sizes.now n.0 0 }
{
    FLAT_WORDS * size_of(sizes, n)
}

// The nodes of the trees of n's children, from child i on.
pub fn sizes_from(nodes: &[u16], sizes: &[u32; NODE_LIMIT], n: NodeNo, i: usize) -> usize
    requires { KnownIn nodes.now n.0 }
    ensures { (result ≡ sum (λ k. get_or sizes.now k 0) (drop i (children_in nodes.now n.0))) × (result ≤ child_limit * table_bound) }
{
    let count = count_of(nodes, n);
    let mut sum: usize = 0;
    for k in i..count {
        sum += size_of(sizes, child_of(nodes, n, k));
    }
    sum
}

// Writes the size of each node's tree, in the order of numbers: children come first.
pub fn fill_sizes(nodes: Nodes, sizes: &mut [u32; NODE_LIMIT])
    ensures { sizes.new ≡ filled_sizes (nodes_of nodes.entry.words.now) (length nodes.entry.words.now / node_words) sizes.old }
{
    let n = nodes.words.len() / NODE_WORDS;
    for i in 0..n {
        sizes[i] = held(1 + sizes_from(nodes.words, sizes, NodeNo(i as u16), 0)) as u32;
    }
}

// The words of a mark, and of none: 1 for forward or 2 for backward, and the rule.
fn words_of_mark(mark: Option<Mark>) -> (u16, u16)
    ensures { (result.0 ≡ mark_word (mark_of mark)) × (result.1 ≡ rule_word (mark_of mark)) }
{
    match mark {
        None => (0, 0),
        Some(m) => match m.direction {
            Direction::Forward => (1, m.rule.0),
            Direction::Backward => (2, m.rule.0),
        },
    }
}

// The one place where a node's words are written, as they stand.
fn put_words(area: &mut [u16], at: usize, n: TreeNode)
    requires { at + flat_words ≤ length area.old }
    ensures { area.new ≡ splice area.old at (n.op.0 ∷ n.count ∷ n.mark ∷ n.rule.0 ∷ []) }
{
    area[at] = n.op.0;
    area[at + 1] = n.count;
    area[at + 2] = n.mark;
    area[at + 3] = n.rule.0;
}

// Writes a node, with a mark or without.
fn put_node(area: &mut [u16], at: usize, op: OpNo, count: u16, mark: Option<Mark>)
    requires { at + flat_words ≤ length area.old }
    ensures { area.new ≡ splice area.old at (op.0 ∷ count ∷ mark_word (mark_of mark) ∷ rule_word (mark_of mark) ∷ []) }
{
    let (direction, rule) = words_of_mark(mark);
    let n = TreeNode {
        op,
        count,
        mark: direction,
        rule: RuleNo(rule),
    };
    put_words(area, at, n);
}

// Writes the root of n's tree, with a mark or without.
fn put_root(nodes: &[u16], n: NodeNo, area: &mut [u16], at: usize, mark: Option<Mark>)
    requires { KnownIn nodes.now n.0 × (at + flat_words ≤ length area.old) }
    ensures { area.new ≡ splice area.old at (root_in nodes.now n.0 (mark_word (mark_of mark)) (rule_word (mark_of mark))) }
{
    let count = count_of(nodes, n) as u16;
    put_node(area, at, operator_of(nodes, n), count, mark);
}

// Writes the words of n's term, unmarked, and returns where they end. A child has a lower number than its node.
pub fn write_tree(nodes: Nodes, n: NodeNo, area: &mut [u16], at: usize) -> usize
    requires n_listed { n.0 < length nodes.words.now / node_words }
    requires n_in_bounds { at + flat_words * size_of (nodes_of nodes.words.now) n.0 ≤ length area.old }
    ensures value { result ≡ at + flat_words * size_of (nodes_of nodes.entry.words.now) n.0 }
    ensures area_after { area.new ≡ splice area.old at (words (one (term_of (nodes_of nodes.entry.words.now) n.0))) }
{
    put_root(nodes.words, n, area, at, None);
    let count = count_of(nodes.words, n);
    let mut end = at + FLAT_WORDS;
    for i in 0..count {
        end = write_tree(nodes, child_of(nodes.words, n, i), area, end);
    }
    end
}

// Copies the nodes that stand from `from` up to `to`, without their marks, to `at`, which is not before `to`.
fn copy_bare(area: &mut [u16], from: usize, to: usize, at: usize)
    requires { (from ≤ to) × (to ≤ at) × WholeNodes (to - from) × (at + (to - from) ≤ length area.old) }
    ensures { area.new ≡ splice area.old at (bare (part area.old from (to - from))) }
{
    let count = (to - from) / FLAT_WORDS;
    for k in 0..count {
        let n = node_at(area, from + FLAT_WORDS * k);
        let bare = TreeNode {
            mark: 0,
            rule: RuleNo(0),
            ..n
        };
        put_words(area, at + FLAT_WORDS * k, bare);
    }
}

// Appends the last term with another subterm at a spot, where one of `old` words stands: the tree of a node, marked at its root. (The old
// length is the caller's, and no part of a spot: it is another at each append.)
pub fn append(
    nodes: Nodes,
    area: &mut [u16],
    spot: Spot,
    old: usize,
    node: NodeNo,
    mark: Mark,
) -> usize
    requires node_listed { node.0 < length nodes.words.now / node_words }
    requires whole_nodes { WholeNodes spot.place × WholeNodes spot.post × (spot.place + old + spot.post ≤ spot.end) }
    requires post_in_bounds { spot.end + spot.place + flat_words * size_of (nodes_of nodes.words.now) node.0 + spot.post ≤ length area.old }
    ensures value { result ≡ spot.end + spot.place + flat_words * size_of (nodes_of nodes.entry.words.now) node.0 + spot.post }
    ensures area_after { area.new ≡ splice area.old spot.end (bare (part area.old (spot.end - spot.post - old - spot.place) spot.place) ++ (words (marked_term (nodes_of nodes.entry.words.now) (marked mark.direction mark.rule.0) node.0) ++ bare (part area.old (spot.end - spot.post) spot.post))) }
{
    let place = spot.place;
    let post = spot.post;
    let end = spot.end;
    let rest = end - post;
    let start = rest - old - place;
    copy_bare(area, start, start + place, end);
    let at = end + place;
    let behind = write_tree(nodes, node, area, at);
    put_root(nodes.words, node, area, at, Some(mark));
    copy_bare(area, rest, end, behind);
    behind + post
}

// The other way round.
fn turned(d: Direction) -> Direction
    ensures { result ≡ turned d }
{
    match d {
        Direction::Forward => Direction::Backward,
        Direction::Backward => Direction::Forward,
    }
}

// The mark of a rule connection walked up or down: walked backwards, its direction is turned.
pub fn mark_for(rule: RuleNo, d: Direction, up: bool) -> Mark
    ensures { (result.rule ≡ rule) × (result.direction ≡ walked d up) }
{
    let direction = if up { d } else { turned(d) };
    Mark { direction, rule }
}

// Sets every word from a place on to zero.
pub fn clear_from(area: &mut [u16], at: usize)
    requires { at ≤ length area.old }
    ensures { area.new ≡ take at area.old ++ replicate (length area.old - at) 0 }
{
    area[at..].fill(0);
}
