// No code: lists of calls tried by computation against what `theorems`, `premise` and `order` claim (`proofs/`).
// Uses `model`, `theorems`, `order` and `premise`. It is used by `accepted`.

#![tactic(auto)]
