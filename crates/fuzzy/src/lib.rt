// The theory of sheets: definitions in `specs/`, theorems in `proofs/`, nothing that runs.
#![tactic(auto)]
