// A row of eight words and the record that it stands for: an input, a relay, a connection, the queue of pulses. Any words at all stand for one.

#![tactic(auto)]

ghost use Rattle.std.specs.Prelude.{◌≡◌, cond};
ghost use Rattle.records.specs.Records.{relay_words, due_words};

// A row, as the host lends it.
pub type Row = [u64; 8];

// The words that the rows of inputs and relays have in common: on or closed, and the usage that grows then.
pub const STATE: usize = 0;

pub const USAGE: usize = 5;

// The words of a connection's row that are its marks: the Monitor message is due, the External Monitor message is.
pub const DUE: usize = 3;

pub const EXTERNAL: usize = 5;

// The word of the queue's row that falls with time: the ms left of the running pulse.
pub const LEFT: usize = 2;

// An input; alarm is its alarm switch.
#[derive(Clone, Copy, Debug, PartialEq, Eq)]
pub struct Input {
    pub level: bool,
    pub alarm: bool,
    pub count: u64,
    pub setpoint_one: u64,
    pub setpoint_two: u64,
    pub usage: u64,
    pub usage_setpoint: u64,
}

impl From<Row> for Input {
    ghost use Rattle.records.specs.Records.{input_in};

    ghost from_gives = { λ row i. i ≡ input_in row };

    fn from(row: Row) -> Input {
        Input {
            level: row[STATE] != 0,
            alarm: row[1] != 0,
            count: row[2],
            setpoint_one: row[3],
            setpoint_two: row[4],
            usage: row[USAGE],
            usage_setpoint: row[6],
        }
    }
}

impl From<Input> for Row {
    ghost use Rattle.records.specs.Records.{input_words};

    ghost from_gives = { λ i row. row ≡ input_words i };

    fn from(i: Input) -> Row {
        [
            u64::from(i.level),
            u64::from(i.alarm),
            i.count,
            i.setpoint_one,
            i.setpoint_two,
            i.usage,
            i.usage_setpoint,
            0,
        ]
    }
}

#[derive(Clone, Copy, Debug, PartialEq, Eq)]
pub struct Relay {
    pub closed: bool,
    pub usage: u64,
    pub usage_setpoint: u64,
}

impl From<Row> for Relay {
    ghost use Rattle.records.specs.Records.{relay_in};

    ghost from_gives = { λ row r. r ≡ relay_in row };

    fn from(row: Row) -> Relay {
        Relay {
            closed: row[STATE] != 0,
            usage: row[USAGE],
            usage_setpoint: row[6],
        }
    }
}

impl Relay {
    // The relay in a relay's row, word by word as the definition has it. The words that it does not have stay, so that nothing is stored for them.
    pub fn stored_in(self, row: Row) -> Row
        ensures { result ≡ relay_words row self }
    {
        [
            u64::from(self.closed),
            row[1],
            row[2],
            row[3],
            row[4],
            self.usage,
            self.usage_setpoint,
            row[7],
        ]
    }
}

// A connection, without its half-read message; strict is what its opening said, external whether the External Monitor message is due. A shut
// one is all zero.
#[derive(Clone, Copy, Debug, PartialEq, Eq)]
pub struct Line {
    pub is_open: bool,
    pub rank: u64,
    pub monitor: bool,
    pub due: bool,
    pub strict: u64,
    pub external: bool,
}

impl From<Row> for Line {
    ghost use Rattle.records.specs.Records.{line_in};

    ghost from_gives = { λ row l. l ≡ line_in row };

    fn from(row: Row) -> Line {
        Line {
            is_open: row[0] != 0,
            rank: row[1],
            monitor: row[2] != 0,
            due: row[DUE] != 0,
            strict: row[4],
            external: row[EXTERNAL] != 0,
        }
    }
}

impl From<Line> for Row {
    ghost use Rattle.records.specs.Records.{line_words};

    ghost from_gives = { λ l row. row ≡ line_words l };

    fn from(l: Line) -> Row {
        [
            u64::from(l.is_open),
            l.rank,
            u64::from(l.monitor),
            u64::from(l.due),
            l.strict,
            u64::from(l.external),
            0,
            0,
        ]
    }
}

// A mark, set or left as it is.
fn mark_word(set: bool, was: u64) -> u64
    ensures { result ≡ cond set 1 was }
{
    if set { 1 } else { was }
}

// A connection's row with one mark set, or the other, or both; every other word stays. A row of words and no Line: nothing but a mark is stored.
pub fn due_words(row: Row, due: bool, external: bool) -> Row
    ensures { result ≡ due_words due external row }
{
    [
        row[0],
        row[1],
        row[2],
        mark_word(due, row[DUE]),
        row[4],
        mark_word(external, row[EXTERNAL]),
        row[6],
        row[7],
    ]
}

// The queue of pulses, without its records, which stand in a row of their own: the place of the first, which runs, and how many stand; of the
// running one the ms left and the relays' states at its beginning; and the request that was accepted last, as it goes into that row.
#[derive(Clone, Copy, Debug, PartialEq, Eq)]
pub struct Queue {
    pub first: u64,
    pub standing: u64,
    pub left: u64,
    pub remembered: u64,
    pub mask: u64,
    pub states: u64,
    pub duration: u64,
}

impl From<Row> for Queue {
    ghost use Rattle.records.specs.Records.{queue_in};

    ghost from_gives = { λ row q. q ≡ queue_in row };

    fn from(row: Row) -> Queue {
        Queue {
            first: row[0],
            standing: row[1],
            left: row[LEFT],
            remembered: row[3],
            mask: row[4],
            states: row[5],
            duration: row[6],
        }
    }
}

impl From<Queue> for Row {
    ghost use Rattle.records.specs.Records.{queue_words};

    ghost from_gives = { λ q row. row ≡ queue_words q };

    fn from(q: Queue) -> Row {
        [
            q.first,
            q.standing,
            q.left,
            q.remembered,
            q.mask,
            q.states,
            q.duration,
            0,
        ]
    }
}
