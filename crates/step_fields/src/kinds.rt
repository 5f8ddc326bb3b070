// The kinds of step that are known, each with its number.
ghost use Rattle.std.specs.Prelude.{◌≡◌};
ghost use Rattle.step_fields.specs.Kinds.{number_of_kind, Decodes};
ghost use Rattle.rules.specs.Refusals.{uses_value};

use limits::Refusal;

// Words are read and written, locks acquired and released, tallies added to and read, jobs enqueued and dequeued; a processor arrives at the barrier, and wants a
// collection.
#[derive(Clone, Copy, PartialEq, Eq)]
pub enum Kind {
    Read = 1,
    Write = 2,
    Acquire = 3,
    Release = 4,
    Arrive = 5,
    Want = 6,
    TallyAdd = 8,
    TallyRead = 9,
    Enqueue = 10,
    Dequeue = 11,
}

impl Kind {
    // Whether a step of this kind uses its value.
    #[tactic(auto, unfolding(rules::specs::Refusals::uses_value))]
    pub fn uses_value(self) -> bool
        ensures { result ≡ uses_value (number_of_kind self) }
    {
        matches!(self, Kind::Write | Kind::TallyAdd | Kind::Enqueue)
    }
}

impl TryFrom<u32> for Kind {
    type Error = Refusal;

    ghost try_from_gives = { Decodes };

    #[tactic(auto, unfolding(rules::specs::Refusals::known_kind))]
    fn try_from(number: u32) -> Result<Kind, Refusal> {
        match number {
            1 => Ok(Kind::Read),
            2 => Ok(Kind::Write),
            3 => Ok(Kind::Acquire),
            4 => Ok(Kind::Release),
            5 => Ok(Kind::Arrive),
            6 => Ok(Kind::Want),
            8 => Ok(Kind::TallyAdd),
            9 => Ok(Kind::TallyRead),
            10 => Ok(Kind::Enqueue),
            11 => Ok(Kind::Dequeue),
            _ => Err(Refusal::UnknownKind),
        }
    }
}
