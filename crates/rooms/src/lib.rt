// The room that a step of a lone queue is handed. X1 alone looks at it, so it is worked out at X1 alone.
// Uses `model` and `slots`. It is used by `queues` and `listing`.

#![tactic(auto, using(model::proofs::Tests::tests))]

ghost use Rattle.std.specs.Prelude.{◌≡◌, ◌≤◌, ◌<◌, length};
ghost use Rattle.model.specs.Memory.{usable};
ghost use Rattle.model.specs.Stores.{taken, words_taken, room_in};
ghost use Rattle.rooms.specs.Handed.{at_claim, no_room};

use model::{Line, Queue, Room};

// At X1 the queue's room; at any other line one behind all arrays, without a word.
pub fn room_at(line: Line, queue: Queue, store: &[u32]) -> Room
    requires claimed_nonzero { (0 < queue.claimed) × (queue.claimed ≤ 11) }
    requires queue_value { words_taken queue ≡ taken queue }
    requires queue_bound { taken queue ≤ usable store.now }
    ensures { result ≡ at_claim line (room_in (usable store.now) (words_taken queue) 0 (words_taken queue) (length store.now)) (no_room store.now) }
{
    if let Line::Claim { .. } = line {
        return slots::room_alone(queue, store);
    }
    let next = slots::usable(store);
    Room { next, left: 0 }
}
