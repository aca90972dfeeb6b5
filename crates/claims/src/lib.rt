#![tactic(auto)]

// Theorems about runs and orders that no code needs: specs/ has the definitions, specs/ and proofs/ the theorems.
