// Order between strangers: specs/ says who are strangers, what a reordering of a run is, and what stays the same; proofs/ has a proof of it.
// There is no code here.
#![tactic(auto)]
