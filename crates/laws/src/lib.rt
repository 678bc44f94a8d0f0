// No function: laws on values that several rooms lean on. proofs/Judging.antt has what a judgement says, and the induction over
// a table's entries; proofs/Area.antt what stands in a lent area after writing.
#![tactic(auto)]
