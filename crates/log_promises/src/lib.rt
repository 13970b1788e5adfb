// What is promised of logs of calls: specs/ has the statements, proofs/ a proof of each. There is no code here: the contracts of
// `log_reader` and `log_writer` cite the definitions that these statements are about.
#![tactic(auto)]
