// The flat proof of a joined pair, written: path writer and congruence writer call each other, and the bound on age falls at each round.
// Each appends at a spot of the last term: how many words stand before it and behind it is known, so that nothing is searched. The costly
// connections of a path are laid on a trail that all open calls share, and taken from it one by one.
#![tactic(auto)]

ghost use Rattle.std.specs.Prelude.{◌≡◌, ◌/◌, ◌<◌, ◌≤◌, length};
ghost use Rattle.model.specs.Limits.{word_limit};
ghost use Rattle.model.specs.Tables.{connection_words};
ghost use Rattle.model.specs.Term.{words};
ghost use Rattle.model.specs.Flat.{later, flat_proof};
ghost use Rattle.entries.specs.Connections.{connection_in, oldest};
ghost use Rattle.entries.specs.Nodes.{nodes_of};
ghost use Rattle.forest.specs.Rows.{connections_of};
ghost use Rattle.writer.specs.Appends.{start_of, leg_terms, twin_terms, term_words};
ghost use Rattle.writer.specs.Written.{Wrote, WriterAsks, Kept, Reached, Matched};

use connections::connection_at;
use model::{CONNECTION_WORDS, Connection, FLAT_WORDS, Justification, NodeNo, TERM_LIMIT};
use needs::{JoinedPair, Lent};
use nodes::{child_of, count_of};
use trail::{age_on, lay_path};
use trees::{Spot, append, mark_for, words_of, write_tree};

// The node that a connection starts from, walked up or down.
fn start_of(c: Connection, up: bool) -> NodeNo
    ensures { result ≡ start_of c up }
{
    if up { c.current } else { c.next }
}

// Appends at a spot what a connection appends, walked up or down. What the writers ask stays a clause: it is of the area and the trail,
// which are written from call to call, and of other terms at each, so that a struct would be built anew with a proof at every call. What is
// lent for reading is passed by reference: by value, each of the calls that are open at once would hold a copy of it.
#[cycle(write_congruence_write_hop_write_path)]
fn write_hop(
    lent: &Lent,
    trail: &mut [u16; TERM_LIMIT],
    used: usize,
    area: &mut [u16],
    at: Spot,
    age: usize,
    up: bool,
) -> usize
    requires listed { age < length lent.now.conns.now / connection_words }
    requires writer_asks { WriterAsks trail.old area.old at (term_words (nodes_of lent.now.nodes.words.now) (start_of (connection_in lent.now.conns.now age) up).0) (leg_terms (nodes_of lent.now.nodes.words.now) lent.now.conns.now age up) used }
    ensures wrote { Wrote area.old at (term_words (nodes_of lent.now.nodes.words.now) (start_of (connection_in lent.now.conns.now age) up).0) (leg_terms (nodes_of lent.now.nodes.words.now) lent.now.conns.now age up) area.new result }
    ensures kept { Kept used trail.old trail.new }
{
    let c = connection_at(lent.conns, age);
    let a = start_of(c, up);
    let b = start_of(c, !up);
    match c.why {
        Justification::Rule(rule, d) => {
            let old = words_of(lent.sizes, a);
            append(lent.nodes, area, at, old, b, mark_for(rule, d, up))
        }
        Justification::Congruence => { write_congruence(lent, trail, used, area, at, age, a, b) }
    }
}

// Rewrites the children first to last, from a's to b's, each by its own path over older connections, the others held.
#[cycle(write_congruence_write_hop_write_path)]
fn write_congruence(
    lent: &Lent,
    trail: &mut [u16; TERM_LIMIT],
    used: usize,
    area: &mut [u16],
    spot: Spot,
    age: usize,
    a: NodeNo,
    b: NodeNo,
) -> usize
    requires matched { Matched lent.now.nodes.words.now lent.now.conns.now age a.0 b.0 }
    requires writer_asks { WriterAsks trail.old area.old spot (term_words (nodes_of lent.now.nodes.words.now) a.0) (twin_terms (nodes_of lent.now.nodes.words.now) lent.now.conns.now age a.0 b.0) used }
    ensures wrote { Wrote area.old spot (term_words (nodes_of lent.now.nodes.words.now) a.0) (twin_terms (nodes_of lent.now.nodes.words.now) lent.now.conns.now age a.0 b.0) area.new result }
    ensures kept { Kept used trail.old trail.new }
{
    let n = count_of(lent.nodes.words, a);
    let mut front = FLAT_WORDS;
    let mut back = words_of(lent.sizes, a) - FLAT_WORDS;
    let mut end = spot.end;
    for i in 0..n {
        let x = child_of(lent.nodes.words, a, i);
        let y = child_of(lent.nodes.words, b, i);
        back -= words_of(lent.sizes, x);
        let at = Spot {
            place: spot.place + front,
            post: spot.post + back,
            end,
        };
        end = write_path(lent, trail, used, area, at, age, x, y);
        front += words_of(lent.sizes, y);
    }
    end
}

// Appends at a spot what the path between two nodes appends, connection by connection. They are joined by connections below the bound,
// which falls at each round: nothing reads it but the proof that the writers end.
#[cycle(write_congruence_write_hop_write_path)]
fn write_path(
    lent: &Lent,
    trail: &mut [u16; TERM_LIMIT],
    used: usize,
    area: &mut [u16],
    spot: Spot,
    bound: usize,
    left: NodeNo,
    right: NodeNo,
) -> usize
    requires reached { Reached lent.now.nodes.words.now lent.now.conns.now bound left.0 right.0 }
    requires writer_asks { WriterAsks trail.old area.old spot (term_words (nodes_of lent.now.nodes.words.now) left.0) (later (nodes_of lent.now.nodes.words.now) (oldest bound lent.now.conns.now) left.0 right.0) used }
    ensures wrote { Wrote area.old spot (term_words (nodes_of lent.now.nodes.words.now) left.0) (later (nodes_of lent.now.nodes.words.now) (oldest bound lent.now.conns.now) left.0 right.0) area.new result }
    ensures kept { Kept used trail.old trail.new }
{
    let way = lay_path(lent.rows, trail, used, left, right);
    let mut end = spot.end;
    for top in (used..way.top).rev() {
        let age = age_on(trail, top);
        let up = way.turn <= top;
        let at = Spot { end, ..spot };
        end = write_hop(lent, trail, top, area, at, age, up);
    }
    end
}

// Writes the flat proof of a joined pair into an area of just its words: the left node's term, and what the path appends.
pub fn write_proof(pair: JoinedPair, area: &mut [u16])
    requires { (length area.old ≤ word_limit) × (length (words (flat_proof (nodes_of pair.lent.nodes.words.now) (connections_of pair.lent.conns.now) pair.left.0 pair.right.0)) ≡ length area.old) }
    ensures { area.new ≡ words (flat_proof (nodes_of pair.entry.lent.nodes.words.now) (connections_of pair.entry.lent.conns.now) pair.entry.left.0 pair.entry.right.0) }
{
    let lent = pair.lent;
    let mut trail = [0u16; TERM_LIMIT];
    let end = write_tree(lent.nodes, pair.left, area, 0);
    let spot = Spot {
        place: 0,
        post: 0,
        end,
    };
    let bound = lent.conns.len() / CONNECTION_WORDS;
    write_path(
        &lent, &mut trail, 0, area, spot, bound, pair.left, pair.right,
    );
}
