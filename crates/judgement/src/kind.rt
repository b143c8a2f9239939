ghost use Rattle.std.specs.Prelude.{◌≡◌, eqb};
ghost use Rattle.model.specs.Tests.{◌or◌};
ghost use Rattle.judgement.specs.Kinds.{number_of, Decodes};

// The kinds of entry, as a log numbers them: a finished put, a hand-out, a take or steal that found the queue empty, a put that found
// it full, a commit.
#[derive(Clone, Copy, PartialEq, Eq)]
pub enum EntryKind {
    Finished = 1,
    HandOut = 2,
    Empty = 3,
    Full = 4,
    Commit = 5,
}

impl EntryKind {
    // Whether an entry of this kind takes a put's number, which is above all before it.
    pub fn is_numbered(self) -> bool
        ensures { result ≡ (eqb (number_of self) 1 or eqb (number_of self) 4) }
    {
        match self {
            EntryKind::Finished | EntryKind::Full => true,
            EntryKind::HandOut | EntryKind::Empty | EntryKind::Commit => false,
        }
    }
}

// A number that no kind has.
#[derive(Clone, Copy)]
pub struct UnknownKind(pub u32);

impl TryFrom<u32> for EntryKind {
    type Error = UnknownKind;

    ghost try_from_gives = { Decodes };

    fn try_from(number: u32) -> Result<Self, UnknownKind> {
        match number {
            1 => Ok(EntryKind::Finished),
            2 => Ok(EntryKind::HandOut),
            3 => Ok(EntryKind::Empty),
            4 => Ok(EntryKind::Full),
            5 => Ok(EntryKind::Commit),
            _ => Err(UnknownKind(number)),
        }
    }
}
