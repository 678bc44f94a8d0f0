// The face: entry points over tables handed in whole. They take any words, end, and refuse by document 01's numbers.
// The tables are u16 words: a node is 10, a rule 387, a connection 5 (their layouts are in crate model, specs/Tables.antt).
#![tactic(auto)]

ghost use Rattle.std.specs.Prelude.{◌≡◌, ◌/◌, length};
ghost use Rattle.model.specs.Judged.{judgement_of};
ghost use Rattle.model.specs.Limits.{node_limit};
ghost use Rattle.model.specs.Tables.{node_words, connection_words, judge_tables, measure_by, answer_by, area_of, verdict_by};
ghost use Rattle.entries.specs.Connections.{Supported};
ghost use Rattle.entries.specs.Nodes.{NodesWhole};
ghost use Rattle.explanation.specs.Measure.{Measures, Ways, Routed};
ghost use Rattle.explanation.specs.Query.{Answers, Responds};

use costs::Accepted;
use forest::{NO_ROW, Row};
use model::{
    Answer, DISTANCE_LIMIT, Judgement, Measured, NODE_LIMIT, NODE_WORDS, NodeNo, Refusal,
    Rejection, Verdict, WORD_LIMIT, Written,
};
use needs::{JoinedPair, Lent};
use nodes::Nodes;
use trees::clear_from;

// Tables handed in whole are judged before all else: nodes, rules, connections; the first bad entry decides. Here and in the entry
// points they come one by one, as the face for C hands them on, since of unjudged words nothing is known; judged, they go on together.
fn judge_tables(nodes: &[u16], rules: &[u16], connections: &[u16]) -> Judgement
    ensures { result ≡ judgement_of (judge_tables nodes.now rules.now connections.now) }
{
    nodes::judge_nodes(nodes)?;
    rule_table::judge_rules(rules)?;
    connections::judge_connections(Nodes { words: nodes }, connections)
}

// The strict checker over tables handed in whole and any words: how many terms were accepted, or the refusal and its place, which is
// 0 over bad tables.
pub fn check(nodes: &[u16], rules: &[u16], connections: &[u16], words: &[u16]) -> Verdict
    ensures { result ≡ verdict_by (judge_tables nodes.now rules.now connections.now) words.now }
{
    // By if let and not by `?`: the edit bad_tables_place changes the place here.
    if let Err(refusal) = judge_tables(nodes, rules, connections) {
        return Err(Rejection { refusal, place: 0 });
    }
    checker::check(rules, words)
}

// The distance of two nodes of accepted tables: 8, 9, 10, or the distance. Where there is one, the rows hold what climbing wants.
fn measure(tables: Accepted, left: NodeNo, right: NodeNo, rows: &mut [Row; NODE_LIMIT]) -> Measured
    ensures measures { Measures tables.entry.nodes.now tables.entry.conns.now left.0 right.0 result }
    ensures routed { Routed tables.entry.nodes.now tables.entry.conns.now left.0 right.0 result rows.new }
{
    let n = tables.nodes.len() / NODE_WORDS;
    if n <= usize::from(left.0) {
        return Err(Refusal::NoNode);
    }
    if n <= usize::from(right.0) {
        return Err(Refusal::NoNode);
    }
    forest::fill_rows(tables.conns, n, rows);
    if !forest::joined(rows, left, right) {
        return Err(Refusal::NotJoined);
    }
    let d = costs::distance(tables, rows, left, right);
    if d > DISTANCE_LIMIT {
        return Err(Refusal::TooFar);
    }
    Ok(d)
}

// The distance of two nodes over tables handed in whole.
pub fn distance(
    nodes: &[u16],
    rules: &[u16],
    connections: &[u16],
    left: NodeNo,
    right: NodeNo,
) -> Measured
    ensures { result ≡ measure_by (judge_tables nodes.now rules.now connections.now) left.0 right.0 }
{
    judge_tables(nodes, rules, connections)?;
    let tables = Accepted {
        nodes,
        conns: connections,
    };
    let mut rows = [NO_ROW; NODE_LIMIT];
    measure(tables, left, right, &mut rows)
}

// Writes the proof of two joined nodes of accepted tables in front of the area: 11, or the distance and the words written.
// That the nodes' words are whole stays a clause here and below: costs::distance takes the same tables, and may not ask that of them. A
// type for these two alone would be taken apart again for it. (Rows and distance, of its six parameters, are what measuring came to.)
fn write_answer(
    tables: Accepted,
    rows: &[Row; NODE_LIMIT],
    distance: usize,
    left: NodeNo,
    right: NodeNo,
    area: &mut [u16],
) -> Answer
    requires nodes_whole { NodesWhole tables.nodes.now }
    requires measures { Measures tables.nodes.now tables.conns.now left.0 right.0 (Ok distance) × Ways tables.nodes.now tables.conns.now left.0 right.0 rows.now }
    ensures { Answers tables.entry.nodes.now tables.entry.conns.now area.old left.0 right.0 result area.new }
{
    let mut sizes = [0u32; NODE_LIMIT];
    let nodes = Nodes {
        words: tables.nodes,
    };
    trees::fill_sizes(nodes, &mut sizes);
    let lent = Lent {
        nodes,
        conns: tables.conns,
        rows,
        sizes: &sizes,
    };
    let pair = JoinedPair { lent, left, right };
    let words = needs::words_needed(pair);
    if words > WORD_LIMIT {
        return Err(Refusal::NoRoom);
    }
    if words > area.len() {
        return Err(Refusal::NoRoom);
    }
    writer::write_proof(pair, &mut area[..words]);
    Ok(Written { distance, words })
}

// A query over accepted tables: 8, 9, 10, 11, or the distance and the words written, the proof then in front of the area.
fn answer(tables: Accepted, left: NodeNo, right: NodeNo, area: &mut [u16]) -> Answer
    requires { NodesWhole tables.nodes.now }
    ensures { Answers tables.entry.nodes.now tables.entry.conns.now area.old left.0 right.0 result area.new }
{
    let mut rows = [NO_ROW; NODE_LIMIT];
    // By a match and not by `?`: the edit far_as_full changes the refusal here.
    match measure(tables, left, right, &mut rows) {
        Ok(d) => write_answer(tables, &rows, d, left, right, area),
        Err(refusal) => Err(refusal),
    }
}

// The same, and the area zero behind what was written; after a refusal all of it is, whatever it held. It takes slices as `query` does: the
// program hands on what it holds.
pub fn respond(
    nodes: &[u16],
    connections: &[u16],
    left: NodeNo,
    right: NodeNo,
    area: &mut [u16],
) -> Answer
    requires { NodesWhole nodes.now × Supported nodes.now (length nodes.now / node_words) connections.now (length connections.now / connection_words) }
    ensures { Responds nodes.now connections.now (length area.old) left.0 right.0 result area.new }
{
    let tables = Accepted {
        nodes,
        conns: connections,
    };
    let answer = answer(tables, left, right, area);
    match answer {
        Ok(written) => clear_from(area, written.words),
        Err(_) => clear_from(area, 0),
    }
    answer
}

// A query over tables handed in whole: the distance and the words written, or the refusal.
pub fn query(
    nodes: &[u16],
    rules: &[u16],
    connections: &[u16],
    left: NodeNo,
    right: NodeNo,
    area: &mut [u16],
) -> Answer
    ensures value { result ≡ answer_by (judge_tables nodes.now rules.now connections.now) (length area.old) left.0 right.0 }
    ensures area_after { area.new ≡ area_of (judge_tables nodes.now rules.now connections.now) (length area.old) left.0 right.0 }
{
    if let Err(refusal) = judge_tables(nodes, rules, connections) {
        clear_from(area, 0);
        return Err(refusal);
    }
    respond(nodes, connections, left, right, area)
}
