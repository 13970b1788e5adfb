// No code: small runs that meet the premises of the demands, so that none of them speaks of nothing; pairs of runs in which one
// premise of demand 3 fails and the replies differ; where "no two copies of one line" is more than arithmetic; and runs in which wrong
// machines break demand 2.
#![tactic(auto)]
