// The lent row of pulses: the functions that look into it. Any place is taken: past the row's end there is no pulse, and a store does nothing.

#![tactic(auto)]

ghost use Rattle.std.specs.Prelude.{◌≡◌, set};
ghost use Rattle.ring.specs.Ring.{pulse_at};
ghost use Rattle.filling.specs.Filling.{lost, row_without};

use records::Queue;
use ring::Pulse;

// The record at a place of the row.
pub fn pulse_at(row: &[Pulse], i: usize) -> Pulse
    ensures { result ≡ pulse_at row.now i }
{
    row.get(i).copied().unwrap_or_default()
}

// A record is stored at a place of the row.
pub fn put_pulse(row: &mut [Pulse], i: usize, p: Pulse)
    ensures { row.new ≡ set row.old i p }
{
    // by index: the contract of a slice's get_mut says nothing of its elements
    if i < row.len() {
        row[i] = p;
    }
}

// The record at a place of the row loses the relays of a place's module.
pub fn lose_at(row: &mut [Pulse], i: usize, place: u8)
    ensures { row.new ≡ set row.old i (lost place (pulse_at row.old i)) }
{
    let p = filling::lose(pulse_at(row, i), place);
    put_pulse(row, i, p);
}

// The first n pulses of a queue lose them.
#[tactic(auto, unfolding(filling::specs::Filling::row_without))]
pub fn lose_first(row: &mut [Pulse], q: Queue, n: u64, place: u8)
    ensures { row.new ≡ row_without place q n row.old }
{
    for k in 0..n {
        lose_at(row, ring::place_in(q, k), place);
    }
}
