// No code: `specs/` says what is claimed of the model's definitions, `proofs/` proves it: demand 3 and what its proof gives.
// Uses `model`. It is used by `order`, `premise`, `examples`, `accepted` and `listing`.

#![tactic(auto)]
