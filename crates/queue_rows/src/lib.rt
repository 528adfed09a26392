// Laws of rows, that a loop fills or in which all are alike: see proofs/.
#![tactic(auto)]
