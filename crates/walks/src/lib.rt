// Laws for walks by hand: a slice that is lent again for a call, and the parts of a loop. Everything stands in proofs/.
#![tactic(auto)]
