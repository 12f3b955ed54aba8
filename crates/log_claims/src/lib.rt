// Theorems about kept logs (document 02, P3): specs/ states them, proofs/ proves them. There is no code.
#![tactic(auto)]
