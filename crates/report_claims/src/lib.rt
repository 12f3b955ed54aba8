// Theorems about calls of a reception record: specs/ states them, proofs/ proves them. There is no code.
#![tactic(auto)]
