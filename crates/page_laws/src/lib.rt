// No code: `proofs/` has the page map as one map of homes: that it gives no two names one home, and that accesses by the cache
// and changes of the map keep a store standing for a flat memory.
#![tactic(auto)]
