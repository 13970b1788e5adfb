// What is promised of the two editions: specs/ says which record a call uses, that a full set gives up the line whose last use is oldest, and the
// demands for each edition; proofs/ has a proof of each. There is no code here.
#![tactic(auto)]
