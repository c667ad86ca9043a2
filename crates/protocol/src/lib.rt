// The protocol's definitions and the theorems about them: no code. See specs/ and proofs/.
#![tactic(auto)]
