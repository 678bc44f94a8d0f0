// What a frame of each kind comes to: an entry taken or refused, a query answered, words put to an open proof, a verdict.
ghost use Rattle.std.specs.Prelude.{◌≡◌, ◌≤◌, length, Some};
ghost use Rattle.model.specs.Limits.{node_limit, program_area};
ghost use Rattle.model.specs.Frame.{words_frame};
ghost use Rattle.decode.specs.Asked.{offered_of};
ghost use Rattle.laws.specs.Area.{splice};
ghost use Rattle.frames.specs.Answer.{Printable, answered, StepReplies};
ghost use Rattle.frames.specs.State.{text_room, Held, Rooms, Running};
ghost use Rattle.frames.specs.Step.{classes_for, NodeStep, RuleStep, ConnectionStep, WordsStep, CloseStep, QueryStep, PairStep};

use super::{
    AREA_WORDS, CONNECTION_KIND, Counts, END_KIND, NODE_KIND, QUERY_KIND, RULE_KIND, Step, Store,
    WORDS_KIND,
};
use connections::part;
use decode::{pair_of, put_words, words_in};
use model::{Answer, CONNECTION_WORDS, NODE_WORDS, NodeNo, RULE_WORDS, Refusal, Written};
use nodes::Nodes;
use reports::{put_distance, put_refusal, put_verdict};
use tables::{take_connection, take_node, take_rule};
use text::put_lines;

// 01: a node.
pub fn node_step(counts: Counts, bytes: &[u8], store: &mut Store) -> Step
    requires { Running counts store.old }
    ensures { NodeStep counts bytes.now store.old result store.new }
{
    let n = counts.nodes;
    take_node(&mut store.nodes, n, bytes)?;
    let counts = Counts {
        kind: NODE_KIND,
        nodes: n + 1,
        offered: 0,
        ..counts
    };
    Ok((counts, 0))
}

// The classes that a connection is judged by: before the first one each node is a class of its own.
fn ready(classes: &mut [u16], connections: usize)
    requires { length classes.old ≤ node_limit }
    ensures { classes.new ≡ classes_for connections classes.old }
{
    if connections == 0 {
        part(classes);
    }
}

// 03: a connection. The classes are cut here, where they are a slice: tried with the store whole, no proof was found of a cut of one of
// its arrays that is lent beside another.
pub fn connection_step(
    counts: Counts,
    bytes: &[u8],
    nodes: &[u16],
    conns: &mut [u16],
    classes: &mut [u16],
) -> Step
    requires { Held counts nodes.now conns.old classes.old × Rooms nodes.now conns.old classes.old }
    ensures { ConnectionStep counts bytes.now nodes.now conns.old classes.old result conns.new classes.new }
{
    let n = counts.nodes;
    let age = counts.connections;
    let words = n * NODE_WORDS;
    ready(&mut classes[..n], age);
    let front = Nodes {
        words: &nodes[..words],
    };
    take_connection(front, conns, &mut classes[..n], age, bytes)?;
    let counts = Counts {
        kind: CONNECTION_KIND,
        connections: age + 1,
        offered: 0,
        ..counts
    };
    Ok((counts, 0))
}

// Words of an offered proof behind those that are open: refused where they outgrow the area.
fn add_words(counts: Counts, words: usize, bytes: &[u8], store: &mut Store) -> Step
    requires running { Running counts store.old }
    requires said { offered_of (words_frame bytes.now) ≡ Some words }
    ensures { WordsStep counts bytes.now store.old result store.new }
{
    let from = counts.offered;
    if words > AREA_WORDS - from {
        return Err(Refusal::NoRoom);
    }
    let end = from + words;
    put_words(bytes, &mut store.area[from..end]);
    let counts = Counts {
        kind: WORDS_KIND,
        offered: end,
        ..counts
    };
    Ok((counts, 0))
}

// 05: words of an offered proof.
pub fn words_step(counts: Counts, bytes: &[u8], store: &mut Store) -> Step
    requires { Running counts store.old }
    ensures { WordsStep counts bytes.now store.old result store.new }
{
    let words = words_in(bytes).ok_or(Refusal::NoEntry)?;
    add_words(counts, words, bytes, store)
}

// 02: a rule.
pub fn rule_step(counts: Counts, bytes: &[u8], store: &mut Store) -> Step
    requires { Running counts store.old }
    ensures { RuleStep counts bytes.now store.old result store.new }
{
    let n = counts.rules;
    take_rule(&mut store.rules, n, bytes)?;
    let counts = Counts {
        kind: RULE_KIND,
        rules: n + 1,
        offered: 0,
        ..counts
    };
    Ok((counts, 0))
}

// 06: the end of an offered proof, and the verdict on it.
pub fn close_step(counts: Counts, bytes: &[u8], store: &mut Store) -> Step
    requires { Running counts store.old }
    ensures { CloseStep counts bytes.now store.old result store.new }
{
    if bytes.len() != 0 {
        return Err(Refusal::NoEntry);
    }
    let end = counts.rules * RULE_WORDS;
    let words = counts.offered;
    let verdict = checker::check(&store.rules[..end], &store.area[..words]);
    let printed = put_verdict(&mut store.room, verdict);
    let counts = Counts {
        kind: END_KIND,
        offered: 0,
        ..counts
    };
    Ok((counts, printed))
}

// What an answered query prints, or a refused one.
fn put_answer(answer: Answer, line: u64, area: &[u16], room: &mut [u8]) -> usize
    requires { Printable answer area.now × (length area.now ≡ program_area) × (length room.old ≡ text_room) }
    ensures value { result ≡ length (answered answer line area.now) }
    ensures room_after { room.new ≡ splice room.old 0 (answered answer line area.now) }
{
    match answer {
        Ok(Written { distance, words }) => {
            let at = put_distance(room, distance);
            put_lines(&area[..words], room, at)
        }
        Err(refusal) => put_refusal(room, u16::from(refusal), line),
    }
}

// The answer to a query over the counted entries, and what it prints.
fn respond_to(counts: Counts, line: u64, left: NodeNo, right: NodeNo, store: &mut Store) -> Step
    requires { Running counts store.old }
    ensures replies { StepReplies counts line left.0 right.0 store.old result store.new }
    ensures pair_step { PairStep counts line left.0 right.0 store.old result store.new }
{
    let n = counts.nodes * NODE_WORDS;
    let c = counts.connections * CONNECTION_WORDS;
    let answer = explanation::respond(
        &store.nodes[..n],
        &store.conns[..c],
        left,
        right,
        &mut store.area,
    );
    let printed = put_answer(answer, line, &store.area, &mut store.room);
    let counts = Counts {
        kind: QUERY_KIND,
        offered: 0,
        ..counts
    };
    Ok((counts, printed))
}

// 04: a query.
pub fn query_step(counts: Counts, line: u64, bytes: &[u8], store: &mut Store) -> Step
    requires { Running counts store.old }
    ensures { QueryStep counts line bytes.now store.old result store.new }
{
    let (left, right) = pair_of(bytes).ok_or(Refusal::NoEntry)?;
    respond_to(counts, line, left, right, store)
}
