// Paths laid on a trail: a stack of the ages of connections that are still to be walked, the first of a path highest.
// A connection that costs nothing appends nothing and is never laid, so that a path takes no more of the trail than its distance.
// An array with places beside it, and no vector: a rule of the project (no heap, fixed memory).
// Numbers are narrowed by `as` where a limit is proved: a TryFrom would be unwrapped each time.
#![tactic(auto)]

ghost use Rattle.std.specs.Prelude.{◌≡◌, List, reverse, ℕ, ◌+◌, ◌-◌, ◌<◌, ◌≤◌, length, get_or};
ghost use Rattle.model.specs.declared.Connection.{Connection};
ghost use Rattle.model.specs.Limits.{node_limit, term_limit};
ghost use Rattle.forest.specs.Rows.{Climbs, age_in};
ghost use Rattle.costs.specs.Costs.{Above};
ghost use Rattle.laws.specs.Area.{splice};
ghost use Rattle.trail.specs.Legs.{ages};
ghost use Rattle.trail.specs.Laid.{ages_at, Rising, Layable, LaidOut};

use forest::{Row, age_of, cost_of, meet, next_of};
use model::{NODE_LIMIT, NodeNo, TERM_LIMIT};

// A path on the trail: the connections at `turn` and above are walked up, those below it down.
#[derive(Clone, Copy)]
pub struct Route {
    pub turn: usize,
    pub top: usize,
}

// The age that lies on the trail at a place.
pub fn age_on(trail: &[u16; TERM_LIMIT], at: usize) -> usize
    requires { at < term_limit }
    ensures { result ≡ get_or trail.now at 0 }
{
    usize::from(trail[at])
}

// Whether a node's parent connection is to be walked, as a count.
fn legs_at(rows: &[Row; NODE_LIMIT], n: NodeNo) -> usize
    requires { n.0 < node_limit }
    ensures { result ≡ length (ages_at rows.now n.0) }
{
    if cost_of(rows, n) == 0 { 0 } else { 1 }
}

// Lays a node's parent connection on the trail, if it costs anything.
fn lay(rows: &[Row; NODE_LIMIT], trail: &mut [u16; TERM_LIMIT], at: usize, n: NodeNo)
    requires { (n.0 < node_limit) × (0 < age_in rows.now n.0) × (age_in rows.now n.0 ≤ node_limit) × (at + length (ages_at rows.now n.0) ≤ term_limit) }
    ensures { trail.new ≡ splice trail.old at (ages_at rows.now n.0) }
{
    if cost_of(rows, n) == 0 {
        return;
    }
    trail[at] = (age_of(rows, n) - 1) as u16;
}

// How many connections the climb from a node to one above it lays. One function for this, lay_down and lay_up is no plainer: each step
// writes nothing, above what was laid, or below it. What a climb asks stays a clause in each: the room for it differs, all of the trail,
// above `used` or below `top`, so that no one value could say it.
fn count_legs(rows: &[Row; NODE_LIMIT], from: NodeNo, to: NodeNo) -> usize
    requires { Rising rows.now from.0 to.0 term_limit }
    ensures { (cs : List Connection) (n : ℕ) → Climbs cs n rows.now → from.0 < n → Above cs from.0 to.0 → result ≡ length (ages rows.now cs from.0 to.0) }
{
    let mut at = from;
    let mut count: usize = 0;
    // A climb stays a while loop: it has no range, and an iterator of its own is no plainer than `at = next_of(rows, at)`.
    while at != to {
        count += legs_at(rows, at);
        at = next_of(rows, at);
    }
    count
}

// Lays the climb from a node to one above it from a place on, its last connection highest, and returns where it ends.
fn lay_down(
    rows: &[Row; NODE_LIMIT],
    trail: &mut [u16; TERM_LIMIT],
    used: usize,
    from: NodeNo,
    to: NodeNo,
) -> usize
    requires { (used ≤ term_limit) × Rising rows.now from.0 to.0 (term_limit - used) }
    ensures { (cs : List Connection) (n : ℕ) → Climbs cs n rows.now → from.0 < n → Above cs from.0 to.0 → (trail.new ≡ splice trail.old used (ages rows.now cs from.0 to.0)) × (result ≡ used + length (ages rows.now cs from.0 to.0)) }
{
    let mut at = from;
    let mut end = used;
    // A while loop as in count_legs.
    while at != to {
        lay(rows, trail, end, at);
        end += legs_at(rows, at);
        at = next_of(rows, at);
    }
    end
}

// Lays the climb from a node to one above it below a place, its first connection highest.
fn lay_up(
    rows: &[Row; NODE_LIMIT],
    trail: &mut [u16; TERM_LIMIT],
    top: usize,
    from: NodeNo,
    to: NodeNo,
)
    requires { (top ≤ term_limit) × Rising rows.now from.0 to.0 top }
    ensures { (cs : List Connection) (n : ℕ) → Climbs cs n rows.now → from.0 < n → Above cs from.0 to.0 → trail.new ≡ splice trail.old (top - length (ages rows.now cs from.0 to.0)) (reverse (ages rows.now cs from.0 to.0)) }
{
    let mut at = from;
    let mut start = top;
    // A while loop as in count_legs.
    while at != to {
        start -= legs_at(rows, at);
        lay(rows, trail, start, at);
        at = next_of(rows, at);
    }
}

// Lays the path between two joined nodes on the trail, from `used` on: down to the right, and above that up from the left.
pub fn lay_path(
    rows: &[Row; NODE_LIMIT],
    trail: &mut [u16; TERM_LIMIT],
    used: usize,
    left: NodeNo,
    right: NodeNo,
) -> Route
    requires { Layable rows.now used left.0 right.0 }
    ensures { (cs : List Connection) (n : ℕ) → Climbs cs n rows.now → left.0 < n → right.0 < n → LaidOut rows.now cs trail.old used left.0 right.0 trail.new result.turn result.top }
{
    let meeting = meet(rows, left, right).unwrap();
    let turn = lay_down(rows, trail, used, right, meeting);
    let top = turn + count_legs(rows, left, meeting);
    lay_up(rows, trail, top, left, meeting);
    Route { turn, top }
}
