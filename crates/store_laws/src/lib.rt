// No code: `proofs/` has what holds of any store (records, cache bytes, memory) that stands for a flat memory, whatever map
// gives its line names their homes. The promises of every edition stand on it.
#![tactic(auto)]
