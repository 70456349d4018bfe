// Refusals: a case for each reason, named for what it says (document 01, "Who can cause a refusal"; document 02, requests 2 to 4).
#![tactic(auto)]

ghost use Rattle.std.specs.Prelude.{◌≡◌};
ghost use Rattle.refusal.specs.Refusals.{refused, outcome_of};
ghost use Rattle.refusal.specs.Replies.{reply_outcome};

// Why a call answers `Err`.
#[derive(Clone, Copy, Debug, PartialEq, Eq)]
pub enum Refusal {
    // The file's writer.
    TooShort { length: usize },
    WrongMark,
    WrongEdition,
    CountOutsideLimits { byte: usize },
    WrongOffset { byte: usize },
    WrongLength,
    WrongArrayByte { byte: usize },
    UnknownAction { byte: usize },
    VersionTooLarge { byte: usize },
    ActionAtEntryOrExit { byte: usize },
    MixedActions { byte: usize },
    WrongEdge { byte: usize },
    TooManyVertices { vertices: usize },
    // The routine's programmer.
    WritesInArgument { vertex: usize, array: usize },
    AmbiguousReference { vertex: usize, array: usize },
    // The path's writer.
    PathLengthOutsideLimits { length: usize },
    WrongStart,
    NoSuchEdge { index: usize },
    // The directive file's writer.
    MalformedDirectives { byte: usize },
    // The directives' programmer.
    TooManyMappings { array: usize },
    TwoMappings { vertex: usize, array: usize },
    // The library's caller.
    ShortRoutineBuffer { needed: usize },
    ShortPlanBuffer { needed: usize },
    ShortReportBuffer { needed: usize },
}

// What a public call answers, in numbers: its number and two places; number 0 is success, with the length written as the first place.
#[repr(C)]
#[derive(Clone, Copy, Debug, PartialEq, Eq)]
pub struct Outcome {
    pub number: u64,
    pub first: u64,
    pub second: u64,
}

// A refusal's number and places.
fn refused(number: u64, first: usize, second: usize) -> Outcome
    ensures { result ≡ refused number first second }
{
    Outcome {
        number,
        first: first as u64,
        second: second as u64,
    }
}

// Those of each reason.
impl From<Refusal> for Outcome {
    ghost from_gives = { λ r outcome. outcome ≡ outcome_of r };

    fn from(r: Refusal) -> Outcome {
        match r {
            Refusal::TooShort { length } => refused(10, length, 0),
            Refusal::WrongMark => refused(10, 0, 0),
            Refusal::WrongEdition => refused(11, 4, 0),
            Refusal::CountOutsideLimits { byte } => refused(12, byte, 0),
            Refusal::WrongOffset { byte } => refused(13, byte, 0),
            Refusal::WrongLength => refused(13, 18, 0),
            Refusal::WrongArrayByte { byte } => refused(14, byte, 0),
            Refusal::UnknownAction { byte } => refused(15, byte, 0),
            Refusal::VersionTooLarge { byte } => refused(17, byte, 0),
            Refusal::ActionAtEntryOrExit { byte } => refused(18, byte, 0),
            Refusal::MixedActions { byte } => refused(19, byte, 0),
            Refusal::WrongEdge { byte } => refused(16, byte, 0),
            Refusal::TooManyVertices { vertices } => refused(22, vertices, 0),
            Refusal::WritesInArgument { vertex, array } => refused(20, vertex, array),
            Refusal::AmbiguousReference { vertex, array } => refused(21, vertex, array),
            Refusal::PathLengthOutsideLimits { length } => refused(30, length, 0),
            Refusal::WrongStart => refused(31, 0, 0),
            Refusal::NoSuchEdge { index } => refused(32, index, 0),
            Refusal::MalformedDirectives { byte } => refused(40, byte, 0),
            Refusal::TooManyMappings { array } => refused(41, array, 0),
            Refusal::TwoMappings { vertex, array } => refused(42, vertex, array),
            Refusal::ShortRoutineBuffer { needed } => refused(1, needed, 0),
            Refusal::ShortPlanBuffer { needed } => refused(1, needed, 0),
            Refusal::ShortReportBuffer { needed } => refused(2, needed, 0),
        }
    }
}

// What a public call answers: success is 0, with the length written as the first place.
impl From<Result<usize, Refusal>> for Outcome {
    ghost from_gives = { λ reply outcome. outcome ≡ reply_outcome reply };

    fn from(reply: Result<usize, Refusal>) -> Outcome {
        match reply {
            Ok(length) => refused(0, length, 0),
            Err(r) => Outcome::from(r),
        }
    }
}
