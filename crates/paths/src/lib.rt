// No function: the laws of connections on values. specs/ says what an accepted list of connections is and where two climbs meet; proofs/ has the
// laws of joined, of path and distance, of climbing, and of one more connection.
#![tactic(auto)]
