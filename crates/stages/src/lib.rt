// Where a worker stands in its operation, what a thief has read, the tag's bits, and one restart more.
// Uses `model`. It is used by `limits`, `opening`, `events`, `machine`, `queues` and `listing`.

#![tactic(auto, using(model::proofs::Tests::tests))]

ghost use Rattle.std.specs.Prelude.{◌≡◌};
ghost use Rattle.model.specs.Tests.{when◌then◌else◌};
ghost use Rattle.model.specs.World.{claim_stage, stage, is_idle};
ghost use Rattle.model.specs.Limits.{read_by};
ghost use Rattle.model.specs.Calls.{one_more};

use model::{Anchor, Growth, Line};

fn claim_stage(why: Growth) -> u32
    ensures { result ≡ claim_stage why }
{
    match why {
        Growth::ForPut { .. } => 3,
        Growth::ForCommit => 1,
    }
}

// Where a worker stands in its operation: the numbers are those of the definition `stage`, which compares them by order.
pub fn stage(line: Line) -> u32
    ensures { result ≡ stage line }
{
    match line {
        Line::Idle => 0,
        Line::Claim { why } => claim_stage(why),
        Line::Note { .. } | Line::Copy { .. } | Line::Publish { .. } => 2,
        Line::PutRead { .. }
        | Line::PutTail { .. }
        | Line::PutTest { .. }
        | Line::PutWord { .. }
        | Line::PutFinish { .. }
        | Line::TakeRead
        | Line::TakeTail { .. }
        | Line::TakeTest { .. }
        | Line::TakeWord { .. }
        | Line::TakeFinish { .. } => 3,
        Line::StealRead => 4,
        Line::StealTail { .. }
        | Line::StealTest { .. }
        | Line::StealNote { .. }
        | Line::StealWord { .. }
        | Line::StealNext { .. }
        | Line::StealCompare { .. } => 5,
    }
}

pub fn is_idle(line: Line) -> bool
    ensures { result ≡ is_idle line }
{
    stage(line) == 0
}

// The anchor that a thief past its line 1 has read.
pub fn read_by(line: Line) -> Anchor
    ensures { result ≡ read_by line }
{
    match line {
        Line::StealTest { read }
        | Line::StealNote { read }
        | Line::StealWord { read, .. }
        | Line::StealNext { read, .. }
        | Line::StealCompare { read, .. } => read,
        _ => Anchor {
            head: 0,
            count: 0,
            tag: 0,
        },
    }
}

// The tag's bits: a linked queue has no tag.
pub fn tag_bits(linked: bool, width: u32) -> u32
    ensures { result ≡ when◌then◌else◌ linked 0 width }
{
    if linked { 0 } else { width }
}

// One restart more; a count stays at its ceiling.
pub fn one_more(restarts: u32) -> u32
    ensures { result ≡ one_more restarts }
{
    restarts.saturating_add(1)
}
