// The node table: its entries judged, and read. A node is ten words: its operator, how many children it has, and eight places for these.
#![tactic(auto)]

ghost use Rattle.std.specs.Prelude.{◌≡◌, ◌+◌, ◌*◌, ◌<◌, ◌≤◌, length, get_or};
ghost use Rattle.model.specs.Limits.{node_limit, child_limit};
ghost use Rattle.model.specs.Judged.{judgement_of};
ghost use Rattle.model.specs.Node.{all_below, add_node};
ghost use Rattle.model.specs.Tables.{node_entry, node_table, node_words};
ghost use Rattle.entries.specs.Nodes.{first_nodes, count_in, child_in, children_in, NodesWhole};
ghost use Rattle.entries.proofs.Single.{single};

use model::{
    CHILD_LIMIT, CHILDREN_AT, COUNT_AT, Judgement, NODE_LIMIT, NODE_WORDS, NodeNo, OpNo, Refusal,
    word,
};

// An accepted table of nodes, lent. Its entries stay ten words each and are read where they stand: the C interface hands them in so, and
// a table of structs would be a copy in memory of its own (no heap, fixed memory).
#[derive(Clone, Copy)]
pub struct Nodes<'a> {
    pub words: &'a [u16],
    pub ghost whole: { NodesWhole words.now } by { Prim.hlevel single },
}

// A node's operator.
pub fn operator_of(nodes: &[u16], n: NodeNo) -> OpNo
    requires { n.0 * node_words + node_words ≤ length nodes.now }
    ensures { result.0 ≡ get_or nodes.now (n.0 * node_words) 0 }
{
    OpNo(nodes[usize::from(n.0) * NODE_WORDS])
}

// How many children a node has.
pub fn count_of(nodes: &[u16], n: NodeNo) -> usize
    requires { n.0 * node_words + node_words ≤ length nodes.now }
    ensures { result ≡ count_in nodes.now n.0 }
{
    usize::from(word(nodes, usize::from(n.0) * NODE_WORDS, COUNT_AT))
}

// A child of a node, from 0.
pub fn child_of(nodes: &[u16], n: NodeNo, i: usize) -> NodeNo
    requires { (n.0 * node_words + node_words ≤ length nodes.now) × (i < child_limit) }
    ensures { result.0 ≡ child_in nodes.now n.0 i }
{
    NodeNo(word(nodes, usize::from(n.0) * NODE_WORDS + CHILDREN_AT, i))
}

// Whether the children of a node have lower numbers than its own.
fn children_below(nodes: &[u16], n: usize) -> bool
    requires { (n ≤ node_limit) × (n * node_words + node_words ≤ length nodes.now) × (count_in nodes.now n ≤ child_limit) }
    ensures { result ≡ all_below n (children_in nodes.now n) }
{
    let at = n * NODE_WORDS + CHILDREN_AT;
    let count = usize::from(word(nodes, n * NODE_WORDS, COUNT_AT));
    for child in &nodes[at..at + count] {
        if n <= usize::from(*child) {
            return false;
        }
    }
    true
}

// Judges the entry of node n, behind the nodes before it.
pub fn judge_node(nodes: &[u16], n: usize) -> Judgement
    requires { n ≤ node_limit }
    ensures { result ≡ judgement_of (add_node (first_nodes n nodes.now) (node_entry nodes.now n)) }
{
    if nodes.len() < n * NODE_WORDS + NODE_WORDS {
        return Err(Refusal::NoEntry);
    }
    if CHILD_LIMIT < word(nodes, n * NODE_WORDS, COUNT_AT) {
        return Err(Refusal::NoEntry);
    }
    if NODE_LIMIT <= n {
        return Err(Refusal::TableFull);
    }
    if children_below(nodes, n) {
        Ok(())
    } else {
        Err(Refusal::ChildNotBelow)
    }
}

// Judges a whole table of nodes. A part of an entry at the end is too short to be one.
pub fn judge_nodes(nodes: &[u16]) -> Judgement
    ensures { result ≡ judgement_of (node_table nodes.now) }
{
    for n in 0..nodes.len().div_ceil(NODE_WORDS) {
        judge_node(nodes, n)?;
    }
    Ok(())
}
