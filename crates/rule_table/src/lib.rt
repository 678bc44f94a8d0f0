// The rule table. An entry is its number, how many items its left and its right side have, and 64 slots of three words (kind,
// variable or operator, count) for each side. Entries are judged one by one, looked up by their numbers, and hand out their sides.
// A table's length says how many entries it has; its words stay as the C interface hands them in.
#![tactic(auto)]

ghost use Rattle.std.specs.Prelude.{◌≡◌, ◌+◌, ◌*◌, ◌≤◌, length};
ghost use Rattle.model.specs.Judged.{judgement_of};
ghost use Rattle.model.specs.Tables.{item_words, side_words, rule_words, side_at, rule_table};
ghost use Rattle.rule_table.specs.Slots.{is_side, item_at, slot_of, variable_in, Standing, known_from};
ghost use Rattle.rule_table.specs.Entries.{AcceptedRules, HasRule, entry_of, with_entry, where_listed, side_slots, left_slots, right_slots};
ghost use Rattle.rule_table.specs.Single.{single};

use model::{
    CHILD_LIMIT, ITEM_LIMIT, ITEM_WORDS, Judgement, LEFT_AT, OpNo, RIGHT_AT, RULE_LIMIT,
    RULE_WORDS, Refusal, RuleNo, SIDE_WORDS, VARIABLE_LIMIT,
};

// An item of a pattern: a variable, or an operator with its child count.
#[derive(Clone, Copy)]
pub enum Item {
    Variable(usize),
    Operator(OpNo, u16),
}

// Which entry lists a number, if one does: one pass over the numbers, the newest first.
pub fn find_rule(rules: &[u16], number: RuleNo) -> Option<usize>
    ensures { result ≡ where_listed rules.now number.0 }
{
    for i in (0..rules.len() / RULE_WORDS).rev() {
        if number == RuleNo(rules[i * RULE_WORDS]) {
            return Some(i);
        }
    }
    None
}

// An entry of a table that holds a rule there. It hands out the slots of the rule's sides.
#[derive(Clone, Copy)]
pub struct Entry<'a> {
    pub rules: &'a [u16],
    pub index: usize,
    pub ghost has_rule: { HasRule rules.now index } by { Prim.hlevel single },
}

impl<'a> Entry<'a> {
    // The slots of a side, which begins so many words behind the entry's first.
    fn side_at(self, from: usize) -> &'a [u16]
        requires { from + side_words ≤ rule_words }
        ensures { result.now ≡ side_slots self.entry.rules.now self.entry.index from }
    {
        let at = self.index * RULE_WORDS + from;
        let end = at + SIDE_WORDS;
        &self.rules[at..end]
    }

    // The slots of its left side. (Two names for one call: a caller that gave the place itself could give a wrong one.)
    pub fn left_side(self) -> &'a [u16]
        ensures { result.now ≡ left_slots self.entry.rules.now self.entry.index }
    {
        self.side_at(LEFT_AT)
    }

    // And those of its right side.
    pub fn right_side(self) -> &'a [u16]
        ensures { result.now ≡ right_slots self.entry.rules.now self.entry.index }
    {
        self.side_at(RIGHT_AT)
    }
}

// The one place where an item's three words are read: what the slot at `at` holds, by its kind, or that a field is outside its set.
pub fn slot_at(slots: &[u16], at: usize) -> Option<Item>
    requires { at + item_words ≤ length slots.now }
    ensures { result ≡ slot_of (item_at slots.now at) }
{
    let kind = slots[at];
    let number = slots[at + 1];
    let count = slots[at + 2];
    match kind {
        0 => {
            let x = usize::from(number);
            if x < VARIABLE_LIMIT {
                Some(Item::Variable(x))
            } else {
                None
            }
        }
        1 => {
            if count <= CHILD_LIMIT {
                Some(Item::Operator(OpNo(number), count))
            } else {
                None
            }
        }
        _ => None,
    }
}

// Whether the first `items` slots from `at` on are one whole pattern of 1 to 64 items: each item that is read takes one
// from the patterns still to be read, and adds its children.
fn is_side(words: &[u16], at: usize, items: usize) -> bool
    requires { at + side_words ≤ length words.now }
    ensures { result ≡ is_side (side_at words.now at items) }
{
    if items > ITEM_LIMIT {
        return false;
    }
    let mut pending: usize = 1;
    for k in 0..items {
        if pending == 0 {
            return false;
        }
        let slot = slot_at(words, at + ITEM_WORDS * k);
        let Some(item) = slot else {
            return false;
        };
        match item {
            Item::Variable(_) => {
                pending -= 1;
            }
            Item::Operator(_, count) => {
                pending = pending - 1 + usize::from(count);
            }
        }
    }
    pending == 0
}

// The variable that the slot at `at` holds, if it holds one.
fn variable_at(slots: &[u16], at: usize) -> Option<usize>
    requires { at + item_words ≤ length slots.now }
    ensures { result ≡ variable_in (slot_of (item_at slots.now at)) }
{
    let item = slot_at(slots, at)?;
    match item {
        Item::Variable(x) => Some(x),
        Item::Operator(_, _) => None,
    }
}

// Which of the sixteen variables stand in the first `items` slots from `at` on.
fn variables(words: &[u16], at: usize, items: usize) -> [bool; VARIABLE_LIMIT]
    requires { at + items * item_words ≤ length words.now }
    ensures { Standing words.now at items result }
{
    let mut on = [false; VARIABLE_LIMIT];
    for k in 0..items {
        let held = variable_at(words, at + ITEM_WORDS * k);
        if let Some(x) = held {
            on[x] = true;
        }
    }
    on
}

// Whether each variable in the first `items` slots from `at` on is one of those given.
fn all_known(words: &[u16], at: usize, items: usize, on: [bool; VARIABLE_LIMIT]) -> bool
    requires { at + items * item_words ≤ length words.now }
    ensures { result ≡ known_from on words.now at items }
{
    for k in 0..items {
        let held = variable_at(words, at + ITEM_WORDS * k);
        if let Some(x) = held {
            if !on[x] {
                return false;
            }
        }
    }
    true
}

// Judges one entry behind the accepted ones of `rules`: 2, 3, 5, the lowest number first. (That these are accepted stays a clause: each
// of the two callers lends a longer front of a table at each turn, so that a type would be built, and proved, anew for each call.)
pub fn judge_rule(rules: &[u16], entry: &[u16]) -> Judgement
    requires { AcceptedRules rules.now }
    ensures { result ≡ judgement_of (with_entry rules.now (entry_of entry.now)) }
{
    if entry.len() != RULE_WORDS {
        return Err(Refusal::NoEntry);
    }
    let left = usize::from(entry[1]);
    let right = usize::from(entry[2]);
    if !is_side(entry, LEFT_AT, left) {
        return Err(Refusal::NoEntry);
    }
    if !is_side(entry, RIGHT_AT, right) {
        return Err(Refusal::NoEntry);
    }
    if rules.len() / RULE_WORDS >= RULE_LIMIT {
        return Err(Refusal::TableFull);
    }
    if find_rule(rules, RuleNo(entry[0])).is_some() {
        return Err(Refusal::RuleUnfit);
    }
    let on = variables(entry, LEFT_AT, left);
    if !all_known(entry, RIGHT_AT, right, on) {
        return Err(Refusal::RuleUnfit);
    }
    Ok(())
}

// Judges a whole table, each entry behind those before it: the first bad one decides. A part of an entry at the end has the
// wrong length.
pub fn judge_rules(rules: &[u16]) -> Judgement
    ensures { result ≡ judgement_of (rule_table rules.now) }
{
    let len = rules.len();
    for pos in (0..len).step_by(RULE_WORDS) {
        let end = len.min(pos + RULE_WORDS);
        judge_rule(&rules[..pos], &rules[pos..end])?;
    }
    Ok(())
}
