// How many words a query's proof needs, known before the first of them is written: what each connection appends, in the order of age,
// and the sum over the path. A connection that is walked from current to next appends other terms than one that is walked back, so
// there are two tables. Numbers of nodes are held at a cap, the first whose words are past the limit.
#![tactic(auto)]

ghost use Rattle.std.specs.Prelude.{List, ◌≡◌, ℕ, ◌/◌, ◌<◌, ◌≤◌, length, get_or};
ghost use Rattle.model.specs.declared.Connection.{Connection};
ghost use Rattle.model.specs.Limits.{node_limit, distance_limit};
ghost use Rattle.model.specs.Forest.{dist};
ghost use Rattle.model.specs.Tables.{connection_words};
ghost use Rattle.entries.specs.Nodes.{nodes_of, children_in};
ghost use Rattle.forest.specs.Rows.{Climbs, connections_of};
ghost use Rattle.costs.specs.Costs.{nodes_in, weigh, Above, Upward, Joins, Alike, Between};
ghost use Rattle.trees.specs.Sizes.{held_nodes};
ghost use Rattle.entries.proofs.Single.{single};
ghost use Rattle.needs.specs.Needs.{tally, path_nodes, runs_by, appended_by, Comes, Appends, Led, Needs, Counts, held_words};

use connections::connection_at;
use forest::{Row, age_of, cost_of, meet, next_of};
use model::{CONNECTION_WORDS, DISTANCE_LIMIT, FLAT_WORDS, Justification, NODE_LIMIT, NodeNo};
use nodes::{Nodes, child_of, count_of};
use trees::{amount, held, size_of, sizes_from};

// What is lent to whoever counts or writes a proof: accepted tables, the rows to climb by with their costs, and how many nodes each
// node's tree has. Rows and sizes are two arrays, since `distance` fills and needs the rows alone.
#[derive(Clone, Copy)]
pub struct Lent<'n, 'a> {
    pub nodes: Nodes<'n>,
    pub conns: &'a [u16],
    pub rows: &'a [Row; NODE_LIMIT],
    pub sizes: &'a [u32; NODE_LIMIT],
    pub ghost counts: { Counts nodes.words.now conns.now rows.now sizes.now } by { Prim.hlevel single },
}

// A joined pair of nodes, within the limit of each other, with what is lent for their proof.
#[derive(Clone, Copy)]
pub struct JoinedPair<'n, 'a> {
    pub lent: Lent<'n, 'a>,
    pub left: NodeNo,
    pub right: NodeNo,
    pub ghost between: { Between lent.nodes.words.now lent.conns.now left.0 right.0 } by { Prim.hlevel single },
    pub ghost near: { dist (nodes_of lent.nodes.words.now) (connections_of lent.conns.now) left.0 right.0 ≤ distance_limit } by { Prim.hlevel single },
}

// What a path costs, and how many nodes it appends.
#[derive(Clone, Copy)]
pub struct Need {
    pub cost: usize,
    pub nodes: usize,
}

// How many nodes each connection appends, by its age: walked up, from current to next, and walked down. Two arrays and not one
// of pairs, since a climb counts by one of the two, lent whole; and no vectors: a rule of the project (no heap, fixed memory).
#[derive(Drop)]
struct Appended {
    ups: [u32; NODE_LIMIT],
    downs: [u32; NODE_LIMIT],
}

// The climb from a node to one above it, each of its connections counted by a table. (Why this and costs::climb_cost are two: see there.)
fn climb_need(rows: &[Row; NODE_LIMIT], table: &[u32; NODE_LIMIT], from: NodeNo, to: NodeNo) -> Need
    requires { Upward rows.now from.0 to.0 }
    ensures { (cs : List Connection) (n : ℕ) → Climbs cs n rows.now → from.0 < n → Above cs from.0 to.0 → Comes result (weigh rows.now cs from.0 to.0) (tally table.now cs from.0 to.0) }
{
    let mut at = from;
    let mut cost: usize = 0;
    let mut nodes: usize = 0;
    // A climb stays a while loop: it has no range, and an iterator of its own is no plainer than `at = next_of(rows, at)`.
    while at != to {
        cost = held(cost + usize::from(cost_of(rows, at)));
        nodes = held(nodes + amount(table, age_of(rows, at) - 1));
        at = next_of(rows, at);
    }
    Need { cost, nodes }
}

// The path between two joined nodes: up from the left, down to the right. (Beside costs::path_cost for the same reason.)
fn path_need(rows: &[Row; NODE_LIMIT], appended: &Appended, left: NodeNo, right: NodeNo) -> Need
    requires { Joins rows.now left.0 right.0 }
    ensures { (cs : List Connection) (n : ℕ) → Climbs cs n rows.now → left.0 < n → right.0 < n → Comes result (weigh rows.now cs left.0 right.0) (path_nodes appended.now.ups appended.now.downs cs left.0 right.0) }
{
    let top = meet(rows, left, right).unwrap();
    let a = climb_need(rows, &appended.ups, left, top);
    let b = climb_need(rows, &appended.downs, right, top);
    Need {
        cost: held(a.cost + b.cost),
        nodes: held(a.nodes + b.nodes),
    }
}

// How many nodes a congruence appends, walked from a to b: those of each child's run, and for each of its terms the root and the
// children held, those before it b's already and those behind it still a's.
fn runs_need(lent: Lent, appended: &Appended, a: NodeNo, b: NodeNo) -> usize
    requires { Alike lent.nodes.words.now lent.rows.now a.0 b.0 }
    ensures { (cs : List Connection) → Climbs cs (nodes_in lent.entry.nodes.words.now) lent.entry.rows.now → result ≡ held_nodes (runs_by (λ k. get_or lent.entry.sizes.now k 0) (weigh lent.entry.rows.now cs) (path_nodes appended.now.ups appended.now.downs cs) 1 (children_in lent.entry.nodes.words.now a.0) (children_in lent.entry.nodes.words.now b.0)) }
{
    let n = count_of(lent.nodes.words, a);
    let mut before: usize = 1;
    let mut sum: usize = 0;
    for i in 0..n {
        let x = child_of(lent.nodes.words, a, i);
        let y = child_of(lent.nodes.words, b, i);
        let run = path_need(lent.rows, appended, x, y);
        let around = before + sizes_from(lent.nodes.words, lent.sizes, a, i + 1);
        sum = held(sum + run.nodes + run.cost * around);
        before += size_of(lent.sizes, y);
    }
    sum
}

// How many nodes a connection appends, walked from a to b. What costs nothing appends nothing, and what costs more than the limit is in
// no proof: neither is counted. The ends come apart from the connection, in the order of the walk.
fn connection_need(
    lent: Lent,
    appended: &Appended,
    why: Justification,
    cost: usize,
    a: NodeNo,
    b: NodeNo,
) -> usize
    requires { Led lent.nodes.words.now lent.rows.now lent.sizes.now why a.0 b.0 }
    ensures { (cs : List Connection) → Climbs cs (nodes_in lent.entry.nodes.words.now) lent.entry.rows.now → Appends cost (appended_by (λ k. get_or lent.entry.sizes.now k 0) (weigh lent.entry.rows.now cs) (path_nodes appended.now.ups appended.now.downs cs) lent.entry.nodes.words.now why a.0 b.0) result }
{
    if cost == 0 {
        return 0;
    }
    if DISTANCE_LIMIT < cost {
        return 0;
    }
    match why {
        Justification::Rule(_, _) => size_of(lent.sizes, b),
        Justification::Congruence => runs_need(lent, appended, a, b),
    }
}

// Writes what each connection appends, both ways, in the order of age: each from those before it.
fn fill_needs(lent: Lent, appended: &mut Appended)
    requires { (length appended.old.ups ≡ node_limit) × (length appended.old.downs ≡ node_limit) }
    ensures { Needs (nodes_of lent.entry.nodes.words.now) lent.entry.conns.now appended.new.ups appended.new.downs (length lent.entry.conns.now / connection_words) }
{
    let count = lent.conns.len() / CONNECTION_WORDS;
    for age in 0..count {
        let c = connection_at(lent.conns, age);
        let a = c.current;
        let b = c.next;
        let why = c.why;
        let cost = usize::from(cost_of(lent.rows, a));
        let up = connection_need(lent, appended, why, cost, a, b);
        let down = connection_need(lent, appended, why, cost, b, a);
        appended.ups[age] = up as u32;
        appended.downs[age] = down as u32;
    }
}

// The words that the flat proof of a joined pair needs, or more than the limit.
pub fn words_needed(pair: JoinedPair) -> usize
    ensures { result ≡ held_words (nodes_of pair.entry.lent.nodes.words.now) (connections_of pair.entry.lent.conns.now) pair.entry.left.0 pair.entry.right.0 }
{
    let lent = pair.lent;
    let mut appended = Appended {
        ups: [0; NODE_LIMIT],
        downs: [0; NODE_LIMIT],
    };
    fill_needs(lent, &mut appended);
    let way = path_need(lent.rows, &appended, pair.left, pair.right);
    FLAT_WORDS * (size_of(lent.sizes, pair.left) + way.nodes)
}
