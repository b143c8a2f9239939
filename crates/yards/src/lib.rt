// No code: `specs/` says what is claimed of several queues over one store, `proofs/` proves it.
// Uses `model`, `theorems` and `order`.

#![tactic(auto)]
