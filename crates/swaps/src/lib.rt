// No code: when two workers' steps may be swapped. `specs/` says it, `proofs/` proves it.
// Uses `model` and `theorems`.

#![tactic(auto)]
