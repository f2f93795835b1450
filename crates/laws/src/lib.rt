// Laws that several crates cite: the exclusive or of numbers, powers of two, lent parts of a run. No code and no definition that a reader must believe: all of
// it stands in proofs/.
#![tactic(auto)]
