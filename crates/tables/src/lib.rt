// Tables that grow by an entry: what a frame says is written behind the entries that were accepted, judged there as a table handed in
// whole would be, and counted by the caller where it is taken. A refused entry adds nothing: what stands behind the count plays no part.
#![tactic(auto)]

ghost use Rattle.std.specs.Prelude.{◌≡◌, ◌+◌, ◌-◌, ◌*◌, ◌≤◌, length, take};
ghost use Rattle.model.specs.Judged.{judgement_of};
ghost use Rattle.model.specs.Frame.{node_frame, rule_frame, connection_frame};
ghost use Rattle.model.specs.Tables.{node_words, rule_words, connection_words};
ghost use Rattle.laws.specs.Area.{splice, part};
ghost use Rattle.layouts.specs.Words.{words_of_node, words_of_rule, words_of_connection};
ghost use Rattle.rule_table.specs.Entries.{AcceptedRules, entry_of, with_entry};
ghost use Rattle.connections.specs.Classes.{Sofar};
ghost use Rattle.decode.specs.Slot.{slot_by};
ghost use Rattle.tables.specs.Grown.{NodesHeld, NodesGrown, RulesHeld, RulesGrown, ConnectionsGrown, Onward, classes_after};

use connections::{connection_at, join, judge_entry};
use decode::{put_connection, put_node, put_rule};
use model::{CONNECTION_WORDS, Judgement, NODE_WORDS, RULE_WORDS, Refusal};
use nodes::{Nodes, judge_node};
use rule_table::judge_rule;

// A node behind the first `n`.
pub fn take_node(nodes: &mut [u16], n: usize, bytes: &[u8]) -> Judgement
    requires { NodesHeld nodes.old n × (n * node_words + node_words ≤ length nodes.old) }
    ensures nodes_grown { NodesGrown nodes.old bytes.now n result nodes.new }
    ensures nodes_after { nodes.new ≡ splice nodes.old (n * node_words) (slot_by words_of_node (part nodes.old (n * node_words) node_words) (node_frame bytes.now)) }
{
    let at = n * NODE_WORDS;
    let end = at + NODE_WORDS;
    if !put_node(bytes, &mut nodes[at..end]) {
        return Err(Refusal::NoEntry);
    }
    judge_node(nodes, n)
}

// Judges the rule whose entry stands from `at` to `end`, behind those before it.
fn judge_behind(rules: &[u16], at: usize, end: usize) -> Judgement
    requires { AcceptedRules (take at rules.now) × (at ≤ end) × (end ≤ length rules.now) }
    ensures { result ≡ judgement_of (with_entry (take at rules.now) (entry_of (part rules.now at (end - at)))) }
{
    judge_rule(&rules[..at], &rules[at..end])
}

// A rule behind the first `n`. (Beside `take_node`, and no generic one: what is written and judged differs, and the rest is one cut.)
pub fn take_rule(rules: &mut [u16], n: usize, bytes: &[u8]) -> Judgement
    requires { RulesHeld rules.old n × (n * rule_words + rule_words ≤ length rules.old) }
    ensures rules_grown { RulesGrown rules.old bytes.now n result rules.new }
    ensures rules_after { rules.new ≡ splice rules.old (n * rule_words) (slot_by words_of_rule (part rules.old (n * rule_words) rule_words) (rule_frame bytes.now)) }
{
    let at = n * RULE_WORDS;
    let end = at + RULE_WORDS;
    if !put_rule(bytes, &mut rules[at..end]) {
        return Err(Refusal::NoEntry);
    }
    judge_behind(rules, at, end)
}

// A connection behind the first `age`, over accepted nodes, with the classes of those before it.
pub fn take_connection(
    nodes: Nodes,
    conns: &mut [u16],
    classes: &mut [u16],
    age: usize,
    bytes: &[u8],
) -> Judgement
    requires sofar { Sofar nodes.words.now conns.old classes.old age }
    requires connection_words_in_bounds { age * connection_words + connection_words ≤ length conns.old }
    ensures connections_grown { ConnectionsGrown nodes.entry.words.now conns.old bytes.now age result conns.new }
    ensures conns_after { conns.new ≡ splice conns.old (age * connection_words) (slot_by words_of_connection (part conns.old (age * connection_words) connection_words) (connection_frame bytes.now)) }
    ensures classes_after { classes.new ≡ classes_after result conns.new age classes.old }
    ensures onward { Onward result nodes.entry.words.now conns.new classes.new age }
{
    let at = age * CONNECTION_WORDS;
    let end = at + CONNECTION_WORDS;
    if !put_connection(bytes, &mut conns[at..end]) {
        return Err(Refusal::NoEntry);
    }
    judge_entry(nodes, classes, conns, age)?;
    let c = connection_at(conns, age);
    join(classes, c.current, c.next);
    Ok(())
}
