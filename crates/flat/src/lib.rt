// No function: the laws of the flat proof on values. What a flat proof is, is said in crate model (specs/Flat.antt); proofs/ has what holds of
// each, whoever writes it: as many terms as the distance and one, as many words as needed words says, exactly one mark in each later
// term, the two ends, and that the strict checker accepts it.
#![tactic(auto)]
