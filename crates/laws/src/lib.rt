// Mathematics over the definitions of paper: everything stands in specs/ and proofs/.
#![tactic(auto)]
