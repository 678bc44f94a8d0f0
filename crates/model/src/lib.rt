// The types that document 01 names, its limits, its refusals with their numbers, and a word of an entry. What the types mean is said
// in specs/.
#![tactic(auto)]

ghost use Rattle.std.specs.Prelude.{◌≡◌, ◌+◌, ◌<◌, length, get_or};
ghost use Rattle.model.specs.Refusal.{number};
ghost use Rattle.model.specs.Verdict.{rejection};

// Node, rule and operator numbers are three kinds that must never be exchanged.
#[derive(Clone, Copy, PartialEq, Eq)]
pub struct NodeNo(pub u16);

#[derive(Clone, Copy, PartialEq, Eq)]
pub struct RuleNo(pub u16);

#[derive(Clone, Copy, PartialEq, Eq)]
pub struct OpNo(pub u16);

// Which way round a rule connection, or a mark, applies its rule.
#[derive(Clone, Copy, PartialEq, Eq)]
pub enum Direction {
    Forward,
    Backward,
}

// Why a connection stands: a rule with its number and direction, or congruence.
#[derive(Clone, Copy, PartialEq, Eq)]
pub enum Justification {
    Rule(RuleNo, Direction),
    Congruence,
}

// A connection goes from current to next. Its age is its place in the table.
#[derive(Clone, Copy, PartialEq, Eq)]
pub struct Connection {
    pub current: NodeNo,
    pub next: NodeNo,
    pub why: Justification,
}

// Where a subterm's words start and end.
#[derive(Clone, Copy)]
pub struct Span {
    pub start: usize,
    pub end: usize,
}

// What each of the sixteen variables is bound to. A variable with an empty span is not bound: document 01 asks for an array of sixteen
// pairs, so no Option stands around them, and no term is empty.
#[derive(Clone, Copy)]
pub struct Bindings {
    pub spans: [Span; VARIABLE_LIMIT],
}

// Document 01's refusals, in the order of its numbers: 1 to 17, and 19.
#[derive(Clone, Copy, PartialEq, Eq)]
pub enum Refusal {
    NoLine,
    NoEntry,
    TableFull,
    ChildNotBelow,
    RuleUnfit,
    EndsUnfit,
    NoSupport,
    NoNode,
    NotJoined,
    TooFar,
    NoRoom,
    NoWords,
    NoTerms,
    FirstMarked,
    NotOneMark,
    RuleUnlisted,
    NoStep,
    TooLong,
}

// The number that document 01 gives a refusal.
impl From<Refusal> for u16 {
    ghost from_gives = { λ r n. n ≡ number r };

    fn from(refusal: Refusal) -> u16 {
        match refusal {
            Refusal::NoLine => 1,
            Refusal::NoEntry => 2,
            Refusal::TableFull => 3,
            Refusal::ChildNotBelow => 4,
            Refusal::RuleUnfit => 5,
            Refusal::EndsUnfit => 6,
            Refusal::NoSupport => 7,
            Refusal::NoNode => 8,
            Refusal::NotJoined => 9,
            Refusal::TooFar => 10,
            Refusal::NoRoom => 11,
            Refusal::NoWords => 12,
            Refusal::NoTerms => 13,
            Refusal::FirstMarked => 14,
            Refusal::NotOneMark => 15,
            Refusal::RuleUnlisted => 16,
            Refusal::NoStep => 17,
            Refusal::TooLong => 19,
        }
    }
}

// What judging an entry of a table answers: it is taken, or the refusal.
pub type Judgement = Result<(), Refusal>;

// A refusal of the strict checker, and the term's place from 0.
#[derive(Clone, Copy, PartialEq, Eq)]
pub struct Rejection {
    pub refusal: Refusal,
    pub place: usize,
}

// A proof that is refused before its terms are judged one by one is refused at place 0.
impl From<Refusal> for Rejection {
    ghost from_gives = { λ r e. e ≡ rejection r 0 };

    fn from(refusal: Refusal) -> Rejection {
        Rejection { refusal, place: 0 }
    }
}

// What the strict checker answers: the count of terms, or the refusal.
pub type Verdict = Result<usize, Rejection>;

// What the distance of a pair answers: the distance, or the refusal.
pub type Measured = Result<usize, Refusal>;

// The distance of a query's pair, and the words that its proof was written into.
#[derive(Clone, Copy, PartialEq, Eq)]
pub struct Written {
    pub distance: usize,
    pub words: usize,
}

// What a query answers: what was written, or the refusal.
pub type Answer = Result<Written, Refusal>;

// What the text of a term answers: the bytes written, or the refusal.
pub type Printed = Result<usize, Refusal>;

// The limits of document 01, each named once; specs/Limits.antt has the same numbers.
pub const NODE_LIMIT: usize = 2048;

pub const CHILD_LIMIT: u16 = 8;

pub const RULE_LIMIT: usize = 256;

pub const ITEM_LIMIT: usize = 64;

pub const VARIABLE_LIMIT: usize = 16;

pub const DISTANCE_LIMIT: usize = 16383;

pub const TERM_LIMIT: usize = 16384;

pub const WORD_LIMIT: usize = 1048576;

// A proof's words: four a tree node.
pub const FLAT_WORDS: usize = 4;

// How many words an entry of each table has, and where a rule's two sides start in its entry, an item being three words;
// specs/Tables.antt says which.
pub const NODE_WORDS: usize = 10;

pub const ITEM_WORDS: usize = 3;

pub const SIDE_WORDS: usize = ITEM_WORDS * ITEM_LIMIT;

pub const LEFT_AT: usize = 3;

pub const RIGHT_AT: usize = LEFT_AT + SIDE_WORDS;

pub const RULE_WORDS: usize = RIGHT_AT + SIDE_WORDS;

pub const CONNECTION_WORDS: usize = 5;

// Where a node's count and children stand in its entry, and the fields of a connection behind current.
pub const COUNT_AT: usize = 1;

pub const CHILDREN_AT: usize = 2;

pub const NEXT_AT: usize = 1;

pub const WHY_AT: usize = 2;

pub const BY_RULE_AT: usize = 3;

pub const FORWARD_AT: usize = 4;

// A word of an entry that starts at a base.
pub fn word(words: &[u16], base: usize, k: usize) -> u16
    requires { base + k < length words.now }
    ensures { result ≡ get_or words.now (base + k) 0 }
{
    words[base + k]
}
