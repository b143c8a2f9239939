// No code: the judge and demand 3. `specs/` says that the judge accepts the bench's own log, `proofs/` proves it.
// Uses `model`, `theorems`, `order`, `examples` and `judgement`.

#![tactic(auto)]
