// The two layouts of an entry, words of a table and bytes of a frame. No code: specs/ says which bytes an entry's words are, and
// proofs/ that both layouts hold the same entry, and that tables handed in whole are judged as their frames would be.
#![tactic(auto)]
