// The connections climbed: a row for each node, all that a climb reads of it, and where two climbs meet.
// Numbers are narrowed by `as` where a limit is proved: a TryFrom would be unwrapped each time. That a node is below the limit stays a clause,
// here and where these rows are climbed: a type would tie each number to the table lent beside it, and be built at each step.
#![tactic(auto)]

ghost use Rattle.std.specs.Prelude.{List, [], ◌++◌, ◌≡◌, ℕ, suc, ◌+◌, ◌<◌, ◌≤◌, length, get_or, set, drop};
ghost use Rattle.model.specs.declared.Connection.{Connection};
ghost use Rattle.model.specs.Limits.{node_limit};
ghost use Rattle.model.specs.Forest.{cur, nxt, joined};
ghost use Rattle.paths.specs.Hangs.{depth};
ghost use Rattle.paths.specs.Meet.{meet_of};
ghost use Rattle.forest.specs.Rows.{row_in, top_row, with_parent, with_cost, with_depth, next_in, age_in, cost_in, depth_in, connections_of, Rooted, Climbs, EndsIn, rows_of};
ghost use Rattle.forest.specs.declared.Row.{Row};
ghost use Rattle.forest.specs.Filling.{Tied, DepthsUnknown, DepthsKnown, Sounded, Sounding, Settled, Unsettled};

use connections::connection_at;
use model::{CONNECTION_WORDS, Connection, NODE_LIMIT, NodeNo};

// A node's row: where its parent connection leads, the age of that connection and 1, what it costs, and the node's depth and 1.
// A node without a parent leads to itself, has age 0 and cost 0; depth 0 is a depth that is not known. Both stay counts with a 0
// and no Option, which is no plainer: meet compares depths, settle counts them down, and of those that read an age two would unwrap it.
#[derive(Clone, Copy)]
pub struct Row {
    pub next: NodeNo,
    pub age: u16,
    pub cost: u16,
    pub depth: u16,
}

// A row of a table that is not filled.
pub const NO_ROW: Row = Row {
    next: NodeNo(0),
    age: 0,
    cost: 0,
    depth: 0,
};

// The node that n's parent connection leads to, or n itself where it has none.
pub fn next_of(rows: &[Row; NODE_LIMIT], n: NodeNo) -> NodeNo
    requires { n.0 < node_limit }
    ensures { result.0 ≡ next_in rows.now n.0 }
{
    rows[usize::from(n.0)].next
}

// The age of n's parent connection, and 1; 0 where it has none.
pub fn age_of(rows: &[Row; NODE_LIMIT], n: NodeNo) -> usize
    requires { n.0 < node_limit }
    ensures { result ≡ age_in rows.now n.0 }
{
    usize::from(rows[usize::from(n.0)].age)
}

// What n's parent connection costs.
pub fn cost_of(rows: &[Row; NODE_LIMIT], n: NodeNo) -> u16
    requires { n.0 < node_limit }
    ensures { result ≡ cost_in rows.now n.0 }
{
    rows[usize::from(n.0)].cost
}

// How many connections a climb from n takes, and 1; 0 while that is not known.
fn depth_of(rows: &[Row; NODE_LIMIT], n: NodeNo) -> usize
    requires { n.0 < node_limit }
    ensures { result ≡ depth_in rows.now n.0 }
{
    usize::from(rows[usize::from(n.0)].depth)
}

// Writes what n's parent connection costs.
pub fn put_cost(rows: &mut [Row; NODE_LIMIT], n: NodeNo, cost: u16)
    requires { n.0 < node_limit }
    ensures { rows.new ≡ set rows.old n.0 (with_cost cost (row_in rows.old n.0)) }
{
    rows[usize::from(n.0)].cost = cost;
}

// Writes a node's depth and 1.
fn put_depth(rows: &mut [Row; NODE_LIMIT], n: NodeNo, depth: u16)
    requires { n.0 < node_limit }
    ensures { rows.new ≡ set rows.old n.0 (with_depth depth (row_in rows.old n.0)) }
{
    rows[usize::from(n.0)].depth = depth;
}

// Makes a node's row that of a node without a parent, its depth not known.
fn put_top(rows: &mut [Row; NODE_LIMIT], n: NodeNo)
    requires { n.0 < node_limit }
    ensures { rows.new ≡ set rows.old n.0 (top_row n.0) }
{
    rows[usize::from(n.0)] = Row { next: n, ..NO_ROW };
}

// Makes the connection of an age its current node's parent.
fn put_parent(rows: &mut [Row; NODE_LIMIT], c: Connection, age: usize)
    requires { (cur c < node_limit) × (age < node_limit) }
    ensures { rows.new ≡ set rows.old (cur c) (with_parent (nxt c) (age + 1) (row_in rows.old (cur c))) }
{
    let current = usize::from(c.current.0);
    rows[current] = Row {
        next: c.next,
        age: (age + 1) as u16,
        ..rows[current]
    };
}

// Makes each of n nodes one without a parent.
fn put_tops(n: usize, rows: &mut [Row; NODE_LIMIT])
    requires { n ≤ node_limit }
    ensures { Tied [] n rows.old rows.new × DepthsUnknown n rows.new }
{
    for i in 0..n {
        put_top(rows, NodeNo(i as u16));
    }
}

// A node's depth and 1, by the nearest node above it whose depth is known.
fn depth_above(rows: &[Row; NODE_LIMIT], n: NodeNo) -> usize
    requires { Sounding rows.now n.0 }
    ensures { (cs : List Connection) (k : ℕ) (old : List Row) → Sounded cs k old rows.now → n.0 < k → result ≡ suc (depth cs n.0) }
{
    let mut at = n;
    let mut steps: usize = 0;
    // A climb stays a while loop: it has no range, and an iterator of its own is no plainer than `at = next_of(rows, at)`.
    while depth_of(rows, at) == 0 {
        steps += 1;
        if age_of(rows, at) == 0 {
            return steps;
        }
        at = next_of(rows, at);
    }
    steps + depth_of(rows, at)
}

// Writes a node's depth, and those of the nodes above it as far as they are not known: the same climb again.
fn settle(rows: &mut [Row; NODE_LIMIT], n: NodeNo)
    requires { Sounding rows.old n.0 }
    ensures { (cs : List Connection) (k : ℕ) (old : List Row) → Sounded cs k old rows.old → n.0 < k → Settled cs k old rows.old rows.new n.0 }
{
    let mut at = n;
    let mut depth = depth_above(rows, n);
    // A while loop as in depth_above: it writes the rows that it climbs by.
    while depth_of(rows, at) == 0 {
        put_depth(rows, at, depth as u16);
        depth -= 1;
        at = next_of(rows, at);
    }
}

// Writes the depths of n nodes, each once: a climb ends where the depth is known.
fn settle_all(n: usize, rows: &mut [Row; NODE_LIMIT])
    requires { Unsettled n rows.old }
    ensures { (cs : List Connection) (old : List Row) → Sounded cs n old rows.old → Sounded cs n old rows.new × DepthsKnown n rows.new }
{
    for i in 0..n {
        settle(rows, NodeNo(i as u16));
    }
}

// Writes the rows of n nodes from accepted connections, with no cost.
pub fn fill_rows(conns: &[u16], n: usize, rows: &mut [Row; NODE_LIMIT])
    requires { Rooted n (connections_of conns.now) }
    ensures { rows.new ≡ rows_of (connections_of conns.now) n ++ drop n rows.old }
{
    put_tops(n, rows);
    let count = conns.len() / CONNECTION_WORDS;
    for age in 0..count {
        put_parent(rows, connection_at(conns, age), age);
    }
    settle_all(n, rows);
}

// Both ends climb by parent connections until they meet: the deeper one first, the left one where both are as deep. A loop that breaks
// with the meeting node, or with none, as document 01 asks: where they meet is known there only. Of which connections the rows are stays a
// premise of each answer, here and above: an answer holds of every list that they stand for, and no such list is lent.
pub fn meet(rows: &[Row; NODE_LIMIT], left: NodeNo, right: NodeNo) -> Option<NodeNo>
    requires { EndsIn rows.now left.0 right.0 }
    ensures { (cs : List Connection) (n : ℕ) → Climbs cs n rows.now → left.0 < n → right.0 < n → result ≡ meet_of cs left.0 right.0 }
{
    let mut l = left;
    let mut r = right;
    let found = loop {
        if l == r {
            break Some(l);
        }
        if depth_of(rows, l) < depth_of(rows, r) {
            r = next_of(rows, r);
        } else {
            if age_of(rows, l) == 0 {
                break None;
            }
            l = next_of(rows, l);
        }
    };
    found
}

// Whether connections join two nodes.
pub fn joined(rows: &[Row; NODE_LIMIT], left: NodeNo, right: NodeNo) -> bool
    requires { EndsIn rows.now left.0 right.0 }
    ensures { (cs : List Connection) (n : ℕ) → Climbs cs n rows.now → left.0 < n → right.0 < n → result ≡ joined cs left.0 right.0 }
{
    meet(rows, left, right).is_some()
}
