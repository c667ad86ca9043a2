// The plans of the requests, computed: no code, and a crate of its own because they take longer than all theorems of `protocol`. See proofs/.
#![tactic(auto)]
