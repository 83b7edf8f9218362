#![tactic(auto)]

// Theorems about the definitions of rules: specs/ states them, proofs/ proves them. There is no code here.
