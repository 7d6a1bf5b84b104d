// One byte of a message: at a message start, in its header, in its content. This crate knows no message type, no checksum and no room.
// Every function takes every input: any half-read message, nonsense too.

#![tactic(auto)]

ghost use Rattle.std.specs.Prelude.{◌≡◌, ◌+◌, ◌*◌, ◌%◌};
ghost use Rattle.steps.specs.Steps.{after_of, first_of, step_of, half_after};

// How far a message has been read: bytes taken, and what its header says so far.
#[repr(C)]
#[derive(Clone, Copy, Debug, PartialEq, Eq)]
pub struct Half {
    pub got: u32,
    pub len: u16,
    pub sum: u16,
}

// What a byte comes to: the message waits for more, or one has ended. A Message has its length and its sent checksum. An enum with these cases
// and no Result: 01, Forms, 15 names them, and `demand` cites them case by case.
#[derive(Clone, Copy, Debug, PartialEq, Eq)]
pub enum Outcome {
    Waiting(Half),
    KeepAlive,
    Stray,
    Message(u16, u16),
}

impl Half {
    // Nothing read.
    pub const NOTHING: Half = Half {
        got: 0,
        len: 0,
        sum: 0,
    };

    // After byte `got`, counted from 0, of a frame whose header is in.
    #[tactic(auto, unfolding(crate::specs::Steps::after_of))]
    fn after(self) -> Outcome
        ensures { result ≡ after_of self.got self.len self.sum }
    {
        let Half { got, len, sum } = self;
        if got < 4 + u32::from(len) {
            return Outcome::Waiting(Half {
                got: got + 1,
                len,
                sum,
            });
        }
        Outcome::Message(len, sum)
    }

    // One byte more of a message.
    #[tactic(auto, unfolding(crate::specs::Steps::step_of))]
    pub fn step(self, b: u8) -> Outcome
        ensures { result ≡ step_of self b }
    {
        let Half { got, len, sum } = self;
        let n = u16::from(b);
        match got {
            0 => first(b),
            1 => Outcome::Waiting(Half {
                got: 2,
                len: n * 256,
                sum: 0,
            }),
            2 => Outcome::Waiting(Half {
                got: 3,
                len: len / 256 * 256 + n,
                sum: 0,
            }),
            3 => Outcome::Waiting(Half {
                got: 4,
                len,
                sum: n * 256,
            }),
            4 => Half {
                got,
                len,
                sum: sum / 256 * 256 + n,
            }
            .after(),
            _ => Half { got, len, sum }.after(),
        }
    }
}

impl Outcome {
    // What is half read then.
    pub fn half(self) -> Half
        ensures { result ≡ half_after self }
    {
        match self {
            Outcome::Waiting(half) => half,
            _ => Half::NOTHING,
        }
    }
}

// At a message start.
#[tactic(auto, unfolding(crate::specs::Steps::first_of))]
fn first(b: u8) -> Outcome
    ensures { result ≡ first_of b }
{
    match b {
        1 => Outcome::Waiting(Half {
            got: 1,
            len: 0,
            sum: 0,
        }),
        6 => Outcome::KeepAlive,
        _ => Outcome::Stray,
    }
}

// The four bytes behind a frame's 0x01 together: its length, then its checksum.
pub fn header(a: u8, b: u8, c: u8, d: u8) -> Outcome
    ensures { result ≡ after_of 4 (a % 256 * 256 + b % 256) (c % 256 * 256 + d % 256) }
{
    Half {
        got: 4,
        len: u16::from_be_bytes([a, b]),
        sum: u16::from_be_bytes([c, d]),
    }
    .after()
}
