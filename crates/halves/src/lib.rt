// The half-read messages: for each connection the three words in which the host lends it. Any words stand for one, so every function takes
// every input. The content read so far stands in the connection's room, which the definitions place and only the framing writes.

#![tactic(auto)]

ghost use Rattle.std.specs.Prelude.{◌≡◌};
ghost use Rattle.steps.specs.Steps.{half_after};
ghost use Rattle.halves.specs.Halves.{half_in, half_words, half_at, put_half, dropped};

use steps::{Half, Outcome};

// Functions and no `From`: neither type is this crate's.
fn half_in(row: [u64; 3]) -> Half
    ensures { result ≡ half_in row }
{
    Half {
        got: (row[0] % 0x1_0000_0000) as u32,
        len: (row[1] % 0x1_0000) as u16,
        sum: (row[2] % 0x1_0000) as u16,
    }
}

fn half_words(half: Half) -> [u64; 3]
    ensures { result ≡ half_words half }
{
    let Half { got, len, sum } = half;
    [u64::from(got), u64::from(len), u64::from(sum)]
}

// Connection c's half-read message; of what is no connection, nothing.
#[tactic(auto, unfolding(crate::specs::Halves::half_at))]
pub fn half_at(halves: &[[u64; 3]; 4], c: usize) -> Half
    ensures { result ≡ half_at c halves.now }
{
    if c < 4 {
        return half_in(halves[c]);
    }
    Half::NOTHING
}

#[tactic(auto, unfolding(crate::specs::Halves::put_half))]
fn put_half(halves: &mut [[u64; 3]; 4], c: usize, half: Half)
    ensures { halves.new ≡ put_half c half halves.old }
{
    if c < 4 {
        halves[c] = half_words(half);
    }
}

// What is half read after a piece of connection c is kept.
pub fn keep_half(halves: &mut [[u64; 3]; 4], c: usize, outcome: Outcome)
    ensures { halves.new ≡ put_half c (half_after outcome) halves.old }
{
    put_half(halves, c, outcome.half());
}

// Where an opening or a closing of c succeeded, by the number that goes to C, nothing of its half-read message is left.
pub fn drop_half(halves: &mut [[u64; 3]; 4], c: u8, answer: u8)
    ensures { halves.new ≡ dropped c answer halves.old }
{
    if answer == numbers::SERVED {
        put_half(halves, usize::from(c), Half::NOTHING);
    }
}
