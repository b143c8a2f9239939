// No code: what is claimed of the log, of `T` and of listings. `specs/` says that the log is the steps' answers, that a FIFO's first
// hand-outs rise along it, that `T` shows none lost, and which list of calls a listing plays; `proofs/` proves it, and that the
// numbers of puts that end rise.
// Uses `model` and `theorems`. It is used by `premise`, `examples` and `accepted`.

#![tactic(auto)]
