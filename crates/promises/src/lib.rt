// The demands: specs/ has the plain machine, runs, sound boards and the three demands as
// statements; proofs/ has a proof of each. There is no code here: the contracts of the calls' code (the crates under "The calls,
// as code" in crates.txt) cite the definitions that these statements are about.
#![tactic(auto)]
