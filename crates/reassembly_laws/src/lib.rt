// Demand 3 over the operations of `reassembly`, and cutting: laws only, in specs/ and proofs/.
#![tactic(auto)]
