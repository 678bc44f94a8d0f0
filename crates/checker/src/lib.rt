// The strict checker. For each later term it judges, in this order: that it has exactly one mark (15), which names a listed rule (16),
// and the step from the term before (17): the rule at the mark, and everything before it and behind it the same. Terms are walked flat.
#![tactic(auto)]

ghost use Rattle.std.specs.Prelude.{◌≡◌, ◌+◌, ◌*◌, ◌<◌, Some};
ghost use Rattle.model.specs.Limits.{flat_words};
ghost use Rattle.terms.specs.Place.{node_of, Well, EndsAt};
ghost use Rattle.marks.specs.Marks.{HasRow};
ghost use Rattle.rule_table.specs.Entries.{AcceptedRules, where_listed};
ghost use Rattle.rule_table.specs.Single.{single};
ghost use Rattle.checker.specs.Check.{EntryFits, MarkFits, Marked, StepIs, FaultIs, FollowsIs, ChainIs, TermsIs, VerdictIs};

use marks::OneMark;
use model::{FLAT_WORDS, Judgement, Refusal, Rejection, TERM_LIMIT, Verdict, WORD_LIMIT};
use rule_table::Entry;
use terms::TwoTerms;

// What is offered: a rule table that was accepted, and the words that are judged by it.
#[derive(Clone, Copy)]
struct Offered<'a> {
    rules: &'a [u16],
    words: &'a [u16],
    ghost accepted: { AcceptedRules rules.now } by { Prim.hlevel single },
}

// Whether the entry's rule makes the first of two terms its left side and the second its right side.
fn entry_fits(entry: Entry, both: TwoTerms) -> bool
    ensures { EntryFits entry.entry.rules.now entry.entry.index both.entry.words.now both.entry.a both.entry.b result }
{
    let left = entry.left_side();
    let right = entry.right_side();
    matching::rule_fits(left, right, both)
}

// Whether the entry's rule allows the second of two terms, whose root is marked, to follow the first: read as the mark says.
fn mark_fits(entry: Entry, both: TwoTerms) -> bool
    ensures { MarkFits entry.entry.rules.now entry.entry.index both.entry.words.now both.entry.a both.entry.b result }
{
    let n = terms::node_at(both.words, both.b);
    let back = both.exchanged();
    match n.mark {
        1 => entry_fits(entry, both),
        2 => entry_fits(entry, back),
        _ => false,
    }
}

impl<'a> Offered<'a> {
    // Whether the term at `at`, whose one mark names the rule of that entry, is a step from the term at `before`: the nodes before the
    // mark agree, the rule allows what stands there, and the nodes behind it agree.
    fn step_by(self, index: usize, before: usize, at: usize, mark: OneMark) -> bool
        requires marked { Marked self.words.now before at mark.nodes mark.end }
        requires nodes_value { where_listed self.rules.now (node_of self.words.now (at + flat_words * mark.nodes)).rule.0 ≡ Some index }
        ensures { StepIs self.entry.rules.now self.entry.words.now before at result }
    {
        if !terms::same_nodes(self.words, before, at, mark.nodes) {
            return false;
        }
        let a = before + FLAT_WORDS * mark.nodes;
        let b = at + FLAT_WORDS * mark.nodes;
        let entry = Entry {
            rules: self.rules,
            index,
        };
        let both = TwoTerms {
            words: self.words,
            a,
            b,
        };
        let fits = mark_fits(entry, both);
        if fits {
            let x = terms::end_of(self.words, a);
            let y = terms::end_of(self.words, b);
            terms::same_nodes(self.words, x, y, (mark.end - y) / FLAT_WORDS)
        } else {
            false
        }
    }

    // Why the term at `at`, which has one mark, may not follow the term at `before`: 16 or 17, the first that holds, if one does.
    fn mark_fault(self, before: usize, at: usize, mark: OneMark) -> Judgement
        requires { Marked self.words.now before at mark.nodes mark.end }
        ensures { FaultIs self.entry.rules.now self.entry.words.now before at result }
    {
        let n = terms::node_at(self.words, at + FLAT_WORDS * mark.nodes);
        // By let and else, and not by `?`: the edit accepts_all changes what is returned here.
        let found = rule_table::find_rule(self.rules, n.rule);
        let Some(i) = found else {
            return Err(Refusal::RuleUnlisted);
        };
        if !self.step_by(i, before, at, mark) {
            return Err(Refusal::NoStep);
        }
        Ok(())
    }

    // Where the term at `at` ends, if it may follow the term from `before` up to it; else 15, 16 or 17, the first that holds.
    fn later_fault(self, before: usize, at: usize) -> Result<usize, Refusal>
        requires ends_at { EndsAt self.words.now before at }
        requires well { Well self.words.now at }
        ensures { FollowsIs self.entry.rules.now self.entry.words.now before at result }
    {
        let mark = marks::one_mark(self.words, at).ok_or(Refusal::NotOneMark)?;
        self.mark_fault(before, at, mark)?;
        Ok(mark.end)
    }

    // The verdict on the later ones of n terms, each judged behind the one before it.
    fn later_terms(self, n: usize) -> Verdict
        requires has_row { HasRow self.words.now 0 n }
        requires n_nonzero { 0 < n }
        ensures { ChainIs self.entry.rules.now self.entry.words.now n result }
    {
        let mut before: usize = 0;
        let mut at = terms::end_of(self.words, 0);
        for k in 1..n {
            let judged = self.later_fault(before, at);
            let e = judged.map_err(|refusal| Rejection { refusal, place: k })?;
            before = at;
            at = e;
        }
        Ok(n)
    }

    // The verdict on n whole terms: 19 for terms, 14, then the later ones.
    fn terms_verdict(self, n: usize) -> Verdict
        requires has_row { HasRow self.words.now 0 n }
        requires n_nonzero { 0 < n }
        ensures { TermsIs self.entry.rules.now self.entry.words.now n result }
    {
        if n > TERM_LIMIT {
            return Err(Refusal::TooLong.into());
        }
        if marks::marked(self.words, 0, 1) {
            return Err(Refusal::FirstMarked.into());
        }
        self.later_terms(n)
    }
}

// The strict checker over an accepted rule table and any words: 19 for words, 12, 13, then the terms. It writes nothing. (The face for C
// has slices, so that the table was accepted is a clause here, and a field from here on.)
pub fn check(rules: &[u16], words: &[u16]) -> Verdict
    requires { AcceptedRules rules.now }
    ensures { VerdictIs rules.now words.now result }
{
    if words.len() > WORD_LIMIT {
        return Err(Refusal::TooLong.into());
    }
    if words.is_empty() {
        return Err(Refusal::NoWords.into());
    }
    let n = terms::whole_terms(words).ok_or(Refusal::NoTerms)?;
    let offered = Offered { rules, words };
    offered.terms_verdict(n)
}
