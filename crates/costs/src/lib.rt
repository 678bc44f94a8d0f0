// Distances: the cost of each connection in the order of age, written into the rows, and the sum over a path, held at a cap.
// A cost is computed from older ones alone, each once.
#![tactic(auto)]

ghost use Rattle.std.specs.Prelude.{List, ◌≡◌, ℕ, ◌+◌, ◌/◌, ◌<◌, ◌≤◌, length};
ghost use Rattle.model.specs.declared.Connection.{Connection};
ghost use Rattle.model.specs.Forest.{cur, nxt, cost_by, sum_pairs, dist};
ghost use Rattle.entries.specs.Connections.{Supported};
ghost use Rattle.model.specs.Tables.{connection_words};
ghost use Rattle.entries.specs.Nodes.{nodes_of, children_in};
ghost use Rattle.forest.specs.Rows.{Climbs, connections_of};
ghost use Rattle.costs.specs.Costs.{cost_cap, held, priced, nodes_in, weigh, Charged, Above, Upward, Joins, Alike, Payable, Between};
ghost use Rattle.entries.proofs.Single.{single};

use connections::connection_at;
use forest::{Row, cost_of, meet, next_of, put_cost};
use model::{CONNECTION_WORDS, Connection, DISTANCE_LIMIT, Justification, NODE_LIMIT, NodeNo};
use nodes::{child_of, count_of};

// The first sum past the limit: what is above is held here.
const COST_CAP: u16 = (DISTANCE_LIMIT + 1) as u16;

// Accepted tables, lent: of nodes, and of connections over them.
#[derive(Clone, Copy)]
pub struct Accepted<'a> {
    pub nodes: &'a [u16],
    pub conns: &'a [u16],
    pub ghost supported: { Supported nodes.now (nodes_in nodes.now) conns.now (length conns.now / connection_words) } by { Prim.hlevel single },
}

// A sum, held at the cap.
fn capped(a: u16, b: u16) -> u16
    requires { (a ≤ cost_cap) × (b ≤ cost_cap) }
    ensures { result ≡ held (a + b) }
{
    (a + b).min(COST_CAP)
}

// What the climb from a node to one above it costs. needs::climb_need and needs::path_need stay beside this and path_cost: they sum by
// other caps and into other types, so that one function for both would take each step as a closure, and be no plainer.
fn climb_cost(rows: &[Row; NODE_LIMIT], from: NodeNo, to: NodeNo) -> u16
    requires { Upward rows.now from.0 to.0 }
    ensures { (cs : List Connection) (n : ℕ) → Climbs cs n rows.now → from.0 < n → Above cs from.0 to.0 → result ≡ held (weigh rows.now cs from.0 to.0) }
{
    let mut at = from;
    let mut sum: u16 = 0;
    // A climb stays a while loop: it has no range, and an iterator of its own is no plainer than `at = next_of(rows, at)`.
    while at != to {
        sum = capped(sum, cost_of(rows, at));
        at = next_of(rows, at);
    }
    sum
}

// What the path between two joined nodes costs: both climbs, to where they meet.
fn path_cost(rows: &[Row; NODE_LIMIT], left: NodeNo, right: NodeNo) -> u16
    requires { Joins rows.now left.0 right.0 }
    ensures { (cs : List Connection) (n : ℕ) → Climbs cs n rows.now → left.0 < n → right.0 < n → result ≡ held (weigh rows.now cs left.0 right.0) }
{
    let top = meet(rows, left, right).unwrap();
    let up = climb_cost(rows, left, top);
    let down = climb_cost(rows, right, top);
    capped(up, down)
}

// What a congruence between two nodes costs: its children's distances, pair by pair.
fn children_cost(nodes: &[u16], rows: &[Row; NODE_LIMIT], a: NodeNo, b: NodeNo) -> u16
    requires { Alike nodes.now rows.now a.0 b.0 }
    ensures { (cs : List Connection) → Climbs cs (nodes_in nodes.now) rows.now → result ≡ held (sum_pairs (weigh rows.now cs) (children_in nodes.now a.0) (children_in nodes.now b.0)) }
{
    let n = count_of(nodes, a);
    let mut sum: u16 = 0;
    for i in 0..n {
        sum = capped(
            sum,
            path_cost(rows, child_of(nodes, a, i), child_of(nodes, b, i)),
        );
    }
    sum
}

// What a connection costs: 1 for a rule, for a congruence the sum of its children's distances.
fn connection_cost(nodes: &[u16], rows: &[Row; NODE_LIMIT], c: Connection) -> u16
    requires { Payable nodes.now rows.now c }
    ensures { (cs : List Connection) → Climbs cs (nodes_in nodes.now) rows.now → result ≡ held (cost_by (nodes_of nodes.now) (weigh rows.now cs) c.why (cur c) (nxt c)) }
{
    match c.why {
        Justification::Rule(_, _) => 1,
        Justification::Congruence => children_cost(nodes, rows, c.current, c.next),
    }
}

// Writes the cost of each connection into its current node's row, in the order of age.
fn fill_costs(tables: Accepted, rows: &mut [Row; NODE_LIMIT])
    requires { Charged (connections_of tables.conns.now) (nodes_in tables.nodes.now) rows.old }
    ensures { rows.new ≡ priced (nodes_of tables.entry.nodes.now) tables.entry.conns.now (length tables.entry.conns.now / connection_words) rows.old }
{
    let count = tables.conns.len() / CONNECTION_WORDS;
    for age in 0..count {
        let c = connection_at(tables.conns, age);
        let cost = connection_cost(tables.nodes, rows, c);
        put_cost(rows, c.current, cost);
    }
}

// The distance between two joined nodes, held at the cap. The rows hold the costs then.
pub fn distance(
    tables: Accepted,
    rows: &mut [Row; NODE_LIMIT],
    left: NodeNo,
    right: NodeNo,
) -> usize
    requires charged { Charged (connections_of tables.conns.now) (nodes_in tables.nodes.now) rows.old }
    requires between { Between tables.nodes.now tables.conns.now left.0 right.0 }
    ensures value { result ≡ held (dist (nodes_of tables.entry.nodes.now) (connections_of tables.entry.conns.now) left.0 right.0) }
    ensures rows_after { rows.new ≡ priced (nodes_of tables.entry.nodes.now) tables.entry.conns.now (length tables.entry.conns.now / connection_words) rows.old }
{
    fill_costs(tables, rows);
    usize::from(path_cost(rows, left, right))
}
