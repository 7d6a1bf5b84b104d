// The lent board: which row of it stands for what. Rows are read and written here, as records (the crate records), but for single words: those
// in which passing time grows (the crate tables), the places' (modules), the marks that are cleared together (marks), and all at power-up.
// Every function takes every board, nonsense words too, and every number: one that is no channel's, or no connection's, reads as blank,
// and a store to it does nothing.

#![tactic(auto)]

ghost use Rattle.std.specs.Prelude.{◌≡◌};
ghost use Rattle.rows.specs.Places.{is_channel, is_relay, input_at, put_input, relay_at, put_relay, line_at, put_line, due_set};
ghost use Rattle.rows.specs.Places.{clock_of, clock_set, queue_of, put_queue, left_set};

use records::{Input, LEFT, Line, Queue, Relay, Row};
use std::marker::Model;

// The first row of each kind, and the number of rows: here alone, as in specs/Places.
pub const FIRST_INPUT: usize = 0;

pub const FIRST_RELAY: usize = 8;

// relays 9 to 16
pub const FIRST_OUTER: usize = 16;

pub const CLOCK: usize = 24;

pub const FIRST_LINE: usize = 25;

pub const QUEUE: usize = 29;

pub const FIRST_PLACE: usize = 30;

pub const ROWS: usize = 32;

// What the host lends: rows of eight words, all that the plain machine holds. Any words may stand in them. In contracts it is its rows, and it
// has rows and no named parts, since the definitions speak of rows: parts with a view each and a way back were longer than what they saved (tried).
#[repr(C)]
#[derive(Clone, Copy)]
pub struct Board {
    pub rows: [Row; ROWS],
}

impl Model for Board {
    ghost use Rattle.std.specs.Prelude.{ℕ, List};

    ghost Value = { List (List ℕ) };

    ghost view = { λ b. b.rows };

    ghost inverse = { λ rows. record { rows = rows } };
}

// The one place where a channel of the box's own inputs and relays is judged.
pub fn is_channel(k: usize) -> bool
    ensures { result ≡ is_channel k }
{
    1 <= k && k <= 8
}

// Whether a relay can have this number: the box's own, or one of the second deck, whose module may be absent.
pub fn is_relay(k: usize) -> bool
    ensures { result ≡ is_relay k }
{
    1 <= k && k <= 16
}

// A reader and a writer for each kind, since each has a record, rows and numbers of its own.
impl Board {
    #[tactic(auto, unfolding(crate::specs::Places::input_at))]
    pub fn input_at(&self, k: usize) -> Input
        ensures { result ≡ input_at k self.now }
    {
        if is_channel(k) {
            return Input::from(self.rows[k - 1 + FIRST_INPUT]);
        }
        Input::from([0; 8])
    }

    #[tactic(auto, unfolding(crate::specs::Places::put_input))]
    pub fn put_input(&mut self, k: usize, i: Input)
        ensures { self.new ≡ put_input k i self.old }
    {
        if is_channel(k) {
            self.rows[k - 1 + FIRST_INPUT] = Row::from(i);
        }
    }

    #[tactic(auto, unfolding(crate::specs::Places::relay_at))]
    pub fn relay_at(&self, k: usize) -> Relay
        ensures { result ≡ relay_at k self.now }
    {
        if is_relay(k) {
            return Relay::from(self.rows[k - 1 + FIRST_RELAY]);
        }
        Relay::from([0; 8])
    }

    #[tactic(auto, unfolding(crate::specs::Places::put_relay))]
    pub fn put_relay(&mut self, k: usize, r: Relay)
        ensures { self.new ≡ put_relay k r self.old }
    {
        if is_relay(k) {
            let at = k - 1 + FIRST_RELAY;
            self.rows[at] = r.stored_in(self.rows[at]);
        }
    }

    #[tactic(auto, unfolding(crate::specs::Places::line_at))]
    pub fn line_at(&self, c: usize) -> Line
        ensures { result ≡ line_at c self.now }
    {
        if c < 4 {
            return Line::from(self.rows[c + FIRST_LINE]);
        }
        Line::from([0; 8])
    }

    #[tactic(auto, unfolding(crate::specs::Places::put_line))]
    pub fn put_line(&mut self, c: usize, l: Line)
        ensures { self.new ≡ put_line c l self.old }
    {
        if c < 4 {
            self.rows[c + FIRST_LINE] = Row::from(l);
        }
    }

    // One mark of a connection, or the other, or both, and no other word of it.
    #[tactic(auto, unfolding(crate::specs::Places::due_set))]
    pub fn set_due(&mut self, c: usize, due: bool, external: bool)
        ensures { self.new ≡ due_set c due external self.old }
    {
        if c < 4 {
            let at = c + FIRST_LINE;
            self.rows[at] = records::due_words(self.rows[at], due, external);
        }
    }

    pub fn clock(&self) -> u64
        ensures { result ≡ clock_of self.now }
    {
        self.rows[CLOCK][0]
    }

    #[tactic(auto, unfolding(crate::specs::Places::clock_set))]
    pub fn set_clock(&mut self, v: u64)
        ensures { self.new ≡ clock_set v self.old }
    {
        self.rows[CLOCK][0] = v;
    }

    #[tactic(auto, unfolding(crate::specs::Places::queue_of))]
    pub fn queue(&self) -> Queue
        ensures { result ≡ queue_of self.now }
    {
        Queue::from(self.rows[QUEUE])
    }

    #[tactic(auto, unfolding(crate::specs::Places::put_queue))]
    pub fn put_queue(&mut self, q: Queue)
        ensures { self.new ≡ put_queue q self.old }
    {
        self.rows[QUEUE] = Row::from(q);
    }

    #[tactic(auto, unfolding(crate::specs::Places::left_set))]
    pub fn set_left(&mut self, v: u64)
        ensures { self.new ≡ left_set v self.old }
    {
        self.rows[QUEUE][LEFT] = v;
    }
}
