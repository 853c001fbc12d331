// What a sweep over the rows of the tables does, as functions of the rooms, and its laws: everything stands in specs/ and proofs/.
#![tactic(auto)]
