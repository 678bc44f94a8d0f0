// No function: tables of nodes and of connections as words. specs/ says what stands in such a table, entry by entry; proofs/ has what judging
// an entry and a whole table gives.
#![tactic(auto)]
