// The connection table: its entries read, and judged one by one. A connection is five words: current, next, kind, rule, forward,
// which stay in their table as a node's do (crate nodes).
// While connections are judged, a table of classes has a word for each node: the node at the top of its class.
// Numbers are narrowed by `as` where a limit is proved: a TryFrom would be unwrapped each time.
#![tactic(auto)]

ghost use Rattle.std.specs.Prelude.{◌≡◌, ◌+◌, ◌*◌, ◌/◌, ◌<◌, ◌≤◌, length, get_or};
ghost use Rattle.model.specs.Limits.{node_limit};
ghost use Rattle.model.specs.Judged.{judgement_of};
ghost use Rattle.model.specs.Connect.{pairs_joined, add_connection};
ghost use Rattle.model.specs.Tables.{connection_entry, connection_table, node_words, connection_words};
ghost use Rattle.entries.specs.Nodes.{NodesStand, nodes_of, count_in, children_in};
ghost use Rattle.laws.specs.Present.{present};
ghost use Rattle.entries.specs.Connections.{direction_in, connection_in, oldest};
ghost use Rattle.paths.specs.Hangs.{Forest};
ghost use Rattle.connections.specs.Classes.{up_to, renamed, classes_joined, same_class, support_by, Classes, JudgedBy};

use model::{
    BY_RULE_AT, CONNECTION_WORDS, Connection, Direction, FORWARD_AT, Judgement, Justification,
    NEXT_AT, NODE_LIMIT, NODE_WORDS, NodeNo, Refusal, RuleNo, WHY_AT, word,
};
use nodes::{Nodes, child_of, count_of, operator_of};

// Which way a rule connection's last word says. (No From of a word in model: a word says it in a judged table alone, where it is 0 or 1.)
fn direction_of(word: u16) -> Direction
    ensures { result ≡ direction_in word }
{
    match word {
        0 => Direction::Backward,
        _ => Direction::Forward,
    }
}

// The connection of an age, by value with its justification.
pub fn connection_at(conns: &[u16], age: usize) -> Connection
    requires { age * connection_words + connection_words ≤ length conns.now }
    ensures { result ≡ connection_in conns.now age }
{
    let base = age * CONNECTION_WORDS;
    let current = NodeNo(word(conns, base, 0));
    let next = NodeNo(word(conns, base, NEXT_AT));
    let why = match word(conns, base, WHY_AT) {
        0 => Justification::Congruence,
        _ => Justification::Rule(
            RuleNo(word(conns, base, BY_RULE_AT)),
            direction_of(word(conns, base, FORWARD_AT)),
        ),
    };
    Connection { current, next, why }
}

// Whether the entry of an age is there whole and its fields are in their sets.
pub fn entry_whole(conns: &[u16], age: usize) -> bool
    requires { age ≤ node_limit }
    ensures { result ≡ present (connection_entry conns.now age) }
{
    let base = age * CONNECTION_WORDS;
    if conns.len() < base + CONNECTION_WORDS {
        return false;
    }
    let rule = word(conns, base, BY_RULE_AT);
    let forward = word(conns, base, FORWARD_AT);
    match word(conns, base, WHY_AT) {
        0 => {
            if rule != 0 {
                return false;
            }
            forward == 0
        }
        1 => forward < 2,
        _ => false,
    }
}

// The node at the top of a node's class.
fn class_of(classes: &[u16], n: NodeNo) -> u16
    requires { n.0 < length classes.now }
    ensures { result ≡ get_or classes.now n.0 0 }
{
    classes[usize::from(n.0)]
}

// Whether two nodes are joined: their classes have one top.
fn joined(classes: &[u16], a: NodeNo, b: NodeNo) -> bool
    requires { (a.0 < length classes.now) × (b.0 < length classes.now) }
    ensures { result ≡ same_class classes.now a.0 b.0 }
{
    class_of(classes, a) == class_of(classes, b)
}

// Where there is no connection, each node is a class of its own. The nodes are counted, since of what is written behind an adapter of
// `iter_mut`, as `enumerate`, a proof knows the length alone.
pub fn part(classes: &mut [u16])
    requires { length classes.old ≤ node_limit }
    ensures { classes.new ≡ up_to (length classes.old) }
{
    for i in 0..classes.len() {
        classes[i] = i as u16;
    }
}

// A class's top, where one class came below another.
fn rename(from: u16, to: u16, top: u16) -> u16
    ensures { result ≡ renamed from to top }
{
    if top == from { to } else { top }
}

// One more connection: the class of `a` comes below that of `b`.
pub fn join(classes: &mut [u16], a: NodeNo, b: NodeNo)
    requires { (a.0 < length classes.old) × (b.0 < length classes.old) }
    ensures { classes.new ≡ classes_joined classes.old a.0 b.0 }
{
    let from = class_of(classes, a);
    let to = class_of(classes, b);
    for top in classes.iter_mut() {
        *top = rename(from, to, *top);
    }
}

// Whether the children of two nodes, of which both have as many, are joined pair by pair.
fn children_joined(nodes: &[u16], classes: &[u16], a: NodeNo, b: NodeNo) -> bool
    requires nodes_stand { NodesStand nodes.now (length classes.now) × (a.0 < length classes.now) × (b.0 < length classes.now) }
    requires a_value { count_in nodes.now a.0 ≡ count_in nodes.now b.0 }
    ensures { result ≡ pairs_joined (same_class classes.now) (children_in nodes.now a.0) (children_in nodes.now b.0) }
{
    for i in 0..count_of(nodes, a) {
        if !joined(classes, child_of(nodes, a, i), child_of(nodes, b, i)) {
            return false;
        }
    }
    true
}

// Whether a congruence between two nodes has its support: equal operators and child counts, and each pair of children joined.
fn supports(nodes: &[u16], classes: &[u16], a: NodeNo, b: NodeNo) -> bool
    requires { NodesStand nodes.now (length classes.now) × (a.0 < length classes.now) × (b.0 < length classes.now) }
    ensures { result ≡ support_by nodes.now classes.now a.0 b.0 }
{
    if operator_of(nodes, a) != operator_of(nodes, b) {
        return false;
    }
    if count_of(nodes, a) != count_of(nodes, b) {
        return false;
    }
    children_joined(nodes, classes, a, b)
}

// Judges a connection behind those that the classes belong to: its ends, then a congruence's support. A node that has a parent is not its class's top.
fn judge_connection(nodes: Nodes, classes: &[u16], c: Connection) -> Judgement
    requires { length classes.now ≡ length nodes.words.now / node_words }
    ensures { JudgedBy nodes.entry.words.now classes.now c result }
{
    let a = c.current;
    let b = c.next;
    let n = classes.len();
    if n <= usize::from(a.0) {
        return Err(Refusal::EndsUnfit);
    }
    if n <= usize::from(b.0) {
        return Err(Refusal::EndsUnfit);
    }
    if class_of(classes, a) != a.0 {
        return Err(Refusal::EndsUnfit);
    }
    if joined(classes, a, b) {
        return Err(Refusal::EndsUnfit);
    }
    match c.why {
        Justification::Rule(_, _) => Ok(()),
        Justification::Congruence => {
            if supports(nodes.words, classes, a, b) {
                Ok(())
            } else {
                Err(Refusal::NoSupport)
            }
        }
    }
}

// Judges the entry of an age, behind the older ones, whose classes are lent.
pub fn judge_entry(nodes: Nodes, classes: &[u16], conns: &[u16], age: usize) -> Judgement
    requires forest { Forest (oldest age conns.now) × (age ≤ node_limit) }
    requires classes { Classes (oldest age conns.now) (length nodes.words.now / node_words) classes.now }
    ensures { result ≡ judgement_of (add_connection (nodes_of nodes.entry.words.now) (oldest age conns.now) (connection_entry conns.now age)) }
{
    if !entry_whole(conns, age) {
        return Err(Refusal::NoEntry);
    }
    judge_connection(nodes, classes, connection_at(conns, age))
}

// Judges a whole table, entry by entry in the order of age, with room for the classes of as many nodes as there are.
fn judge_ages(nodes: Nodes, conns: &[u16], classes: &mut [u16]) -> Judgement
    requires { length classes.old ≡ length nodes.words.now / node_words }
    ensures { result ≡ judgement_of (connection_table (nodes_of nodes.entry.words.now) conns.now) }
{
    part(classes);
    for age in 0..conns.len().div_ceil(CONNECTION_WORDS) {
        judge_entry(nodes, classes, conns, age)?;
        let c = connection_at(conns, age);
        join(classes, c.current, c.next);
    }
    Ok(())
}

// Judges a whole table of connections over accepted nodes: the first bad entry decides.
pub fn judge_connections(nodes: Nodes, conns: &[u16]) -> Judgement
    ensures { result ≡ judgement_of (connection_table (nodes_of nodes.entry.words.now) conns.now) }
{
    let n = nodes.words.len() / NODE_WORDS;
    let mut classes = [0u16; NODE_LIMIT];
    judge_ages(nodes, conns, &mut classes[..n])
}
