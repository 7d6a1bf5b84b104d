// What a call of the plain machine gives back: an answer number, its place and a reply's length; and a reply sealed, with its header before it.
// It knows no event and no message. It takes every number and every buffer.

#![tactic(auto)]

ghost use Rattle.std.specs.Prelude.{◌≡◌};
ghost use Rattle.refusals.specs.Refusals.{number_of, place_of, answer_of, place_in};
ghost use Rattle.answers.specs.Calls.{served_at, served_of, sealed_reply, sealed_served};

use refusals::Refusal;

// What an event or a message came to; len bytes of the reply buffer are the reply. The place is that of the first byte of a content that is
// missing or left over, where that is why it is refused, else 0. The answer is its number and no enum, since it goes to C as it stands.
#[derive(Clone, Copy, Debug, PartialEq, Eq)]
pub struct Served {
    pub answer: u8,
    pub place: usize,
    pub len: usize,
}

// Answered with a number and its place, and no reply: what the four below are made of.
pub fn refused_at(answer: u8, place: usize) -> Served
    ensures { result ≡ served_at answer place 0 }
{
    Served {
        answer,
        place,
        len: 0,
    }
}

// Refused, with its number and its place.
pub fn refused(refusal: Refusal) -> Served
    ensures { result ≡ served_at (number_of refusal) (place_of refusal) 0 }
{
    refused_at(refusal.number(), refusal.place())
}

// Served with no reply, or refused.
pub fn concluded(outcome: Result<(), Refusal>) -> Served
    ensures { result ≡ served_at (answer_of outcome) (place_in outcome) 0 }
{
    match outcome {
        Ok(()) => no_reply(numbers::SERVED),
        Err(refusal) => refused(refusal),
    }
}

// Answered with a number and no reply.
pub fn no_reply(answer: u8) -> Served
    ensures { result ≡ served_of answer 0 }
{
    refused_at(answer, 0)
}

// The header is put before a reply's content that stands from the sixth byte on; where there is none, nothing is done.
pub fn seal(s: Served, reply: &mut [u8]) -> Served
    ensures { (result ≡ sealed_served s reply.old) × (reply.new ≡ sealed_reply s.len reply.old) }
{
    if s.len == 0 {
        return s;
    }
    Served {
        len: frames::seal(reply, s.len),
        ..s
    }
}

// Served, with a reply whose content has len bytes.
pub fn replied(len: usize) -> Served
    ensures { result ≡ served_of 1 len }
{
    Served {
        answer: numbers::SERVED,
        place: 0,
        len,
    }
}
