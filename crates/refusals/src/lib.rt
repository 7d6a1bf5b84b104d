// Why a call or a message is refused: each line of the table by which something is refused, by its name, and the number and the place that go
// out for it. Whoever judges answers with one of these; the number is made of it here alone. Takes every refusal.

#![tactic(auto)]

ghost use Rattle.std.specs.Prelude.{◌≡◌};
ghost use Rattle.refusals.specs.Refusals.{number_of, place_of};

// Why nothing was done. A content that breaks its layout has the place of the first byte that is missing or left over, counted from its type.
#[derive(Clone, Copy, Debug, PartialEq, Eq)]
pub enum Refusal {
    NoConnection,
    // a reply buffer, or a row of pulses
    ShortBuffer,
    TooLong,
    BadChecksum,
    NotOffered,
    LowRank,
    OutOfRange,
    AlreadyOpen,
    BadRank,
    QueueFull,
    EndsEarly(usize),
    LeftOver(usize),
    ListCut(usize),
}

impl Refusal {
    // Its number in 01's table.
    pub fn number(self) -> u8
        ensures { result ≡ number_of self }
    {
        match self {
            Refusal::NoConnection => numbers::NO_CONNECTION,
            Refusal::ShortBuffer => numbers::SHORT_BUFFER,
            Refusal::TooLong => numbers::TOO_LONG,
            Refusal::BadChecksum => numbers::BAD_CHECKSUM,
            Refusal::NotOffered => numbers::NOT_OFFERED,
            Refusal::LowRank => numbers::LOW_RANK,
            Refusal::OutOfRange => numbers::OUT_OF_RANGE,
            Refusal::AlreadyOpen => numbers::ALREADY_OPEN,
            Refusal::BadRank => numbers::BAD_RANK,
            Refusal::QueueFull => numbers::QUEUE_FULL,
            Refusal::EndsEarly(_) => numbers::ENDS_EARLY,
            Refusal::LeftOver(_) => numbers::LEFT_OVER,
            Refusal::ListCut(_) => numbers::LIST_CUT,
        }
    }

    // The place of the first byte that is missing or left over; 0 for a refusal that has none.
    pub fn place(self) -> usize
        ensures { result ≡ place_of self }
    {
        match self {
            Refusal::EndsEarly(place) => place,
            Refusal::LeftOver(place) => place,
            Refusal::ListCut(place) => place,
            _ => 0,
        }
    }
}
