// Pulses asked for, and their queue as a ring of 31 places: which request stands at which place of the lent row, and what is left when the first
// is gone. Queues come and go by value; of the board it reads the queue's row alone. It switches no relay and passes no time.
// Takes every queue, nonsense words too: of a number of pulses above 31, 31 stand; the first stands at the rest of its place by 31.

#![tactic(auto)]

ghost use Rattle.std.specs.Prelude.{◌≡◌, cond};
ghost use Rattle.ring.specs.Ring.{pulse_of, relay_pulse, is_full, place, popped, joined, newest, seat_of};

use records::Queue;
use rows::Board;

// How many pulses stand at most.
pub const PLACES: u64 = 31;

// The masked relays take these states for so many ms.
#[repr(C)]
#[derive(Clone, Copy, Debug, Default, PartialEq, Eq)]
pub struct Pulse {
    pub mask: u16,
    pub states: u16,
    pub duration: u32,
}

impl Pulse {
    // Action 6: relay k is closed for so many ms.
    #[tactic(auto, unfolding(crate::specs::Ring::relay_pulse))]
    pub fn relay(k: u16, duration: u32) -> Pulse
        ensures { result ≡ relay_pulse k duration }
    {
        let mask = if rows::is_relay(usize::from(k)) {
            1 << (k - 1)
        } else {
            0
        };
        Pulse {
            mask,
            states: mask,
            duration,
        }
    }

    // Action 7: the masked relays take these states for so many ms; a mask of a byte names relays 1 to 8.
    pub fn block(mask: u8, states: u8, duration: u32) -> Pulse
        ensures { result ≡ pulse_of mask states duration }
    {
        Pulse {
            mask: u16::from(mask),
            states: u16::from(states),
            duration,
        }
    }

    // The request that was accepted last, as it goes into the row; what is above a field's width is cut off.
    #[tactic(auto, unfolding(crate::specs::Ring::newest))]
    pub fn newest(board: &Board) -> Pulse
        ensures { result ≡ newest board.now }
    {
        let q = board.queue();
        Pulse {
            mask: (q.mask % 0x1_0000) as u16,
            states: (q.states % 0x1_0000) as u16,
            duration: (q.duration % 0x1_0000_0000) as u32,
        }
    }
}

// A place of the ring: the k-th behind the first.
pub fn place_in(q: Queue, k: u64) -> usize
    ensures { result ≡ place q k }
{
    ((q.first % PLACES + k % PLACES) % PLACES) as usize
}

// The queue with a request more, behind the last; where 31 stand it takes none.
pub fn join(q: Queue, p: Pulse) -> Queue
    ensures { result ≡ cond (is_full q) q (joined p q) }
{
    if q.standing >= PLACES {
        return q;
    }
    Queue {
        standing: q.standing + 1,
        mask: u64::from(p.mask),
        states: u64::from(p.states),
        duration: u64::from(p.duration),
        ..q
    }
}

// The place of the request that a message added to the queue, where it added one: more stand behind it than did before.
#[tactic(auto, unfolding(crate::specs::Ring::seat_of))]
pub fn seat(before: Queue, after: Queue) -> Option<usize>
    ensures { result ≡ seat_of before after }
{
    if before.standing < after.standing {
        Some(place_in(after, after.standing - 1))
    } else {
        None
    }
}

// The first is gone.
pub fn pop(q: Queue) -> Queue
    ensures { result ≡ popped q }
{
    Queue {
        first: place_in(q, 1) as u64,
        standing: q.standing.min(PLACES).saturating_sub(1),
        left: 0,
        remembered: 0,
        ..q
    }
}
