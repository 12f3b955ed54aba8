// Theorems about lists of calls of the reorder buffer: specs/ states them, proofs/ proves them. There is no code.
#![tactic(auto)]
