// No code: the premise of demand 3. `specs/` says that linked kinds and width 16 do not need it, and that without a link it is tight at
// every other width; `proofs/` proves it.
// Uses `model`, `theorems` and `order`. It is used by `examples`.

#![tactic(auto)]
