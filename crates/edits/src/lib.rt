// What is done to one input or one relay, as records by value: it is told its level, a command or an entry of a WriteDevices message edits it.
// It knows no board. It takes every record and every number.

#![tactic(auto)]

ghost use Rattle.std.specs.Prelude.{◌≡◌};
ghost use Rattle.laws.specs.Bits.{bit_of};
ghost use Rattle.edits.specs.Edits.{raised, told, count_written, state_written, input_written, relay_written, relay_fails, input_edited, relay_edited};

use records::{Input, Relay};

// A rise counts, up to the largest number.
fn raise(before: bool, after: bool, count: u64) -> u64
    ensures { result ≡ raised before after count }
{
    if !before && after {
        count.saturating_add(1).min(0xFFFF_FFFF)
    } else {
        count
    }
}

// An input that is told its level.
#[tactic(auto, unfolding(crate::specs::Edits::told))]
fn tell(input: Input, on: bool) -> Input
    ensures { result ≡ told on input }
{
    Input {
        level: on,
        count: raise(input.level, on, input.count),
        ..input
    }
}

// Bit k, the lowest 0. A number of 16 bits has none above the fifteenth.
#[tactic(auto, using(crate::proofs::Bits::none_above))]
pub fn bit(m: u16, k: usize) -> bool
    ensures { result ≡ bit_of m k }
{
    k < 16 && (m >> k) % 2 == 1
}

// The count after an entry. The write is judged first: it stands over a reset.
fn count_written(flags: u8, count: u64, was: u64) -> u64
    ensures { result ≡ count_written flags count was }
{
    if bit(u16::from(flags), 1) {
        count
    } else if bit(u16::from(flags), 0) {
        0
    } else {
        was
    }
}

fn state_written(flags: u8, state: u8, was: bool) -> bool
    ensures { result ≡ state_written flags state was }
{
    if bit(u16::from(flags), 0) {
        state == 1
    } else {
        was
    }
}

#[tactic(auto, unfolding(crate::specs::Edits::input_written))]
fn input_written(input: Input, flags: u8, count: u64) -> Input
    ensures { result ≡ input_written flags count input }
{
    Input {
        count: count_written(flags, count, input.count),
        usage: if bit(u16::from(flags), 2) {
            0
        } else {
            input.usage
        },
        ..input
    }
}

#[tactic(auto, unfolding(crate::specs::Edits::relay_written))]
fn relay_written(relay: Relay, flags: u8, state: u8) -> Relay
    ensures { result ≡ relay_written flags state relay }
{
    Relay {
        closed: state_written(flags, state, relay.closed),
        usage: if bit(u16::from(flags), 1) {
            0
        } else {
            relay.usage
        },
        ..relay
    }
}

// What is done to one input: it is told its level, a command clears, an entry of a WriteDevices message writes (flags, count).
// An edit is a value and no closure: `changes` promises `on_input (input_edited edit)`, a function of records that the contract can name.
#[derive(Clone, Copy, Debug, PartialEq, Eq)]
pub enum InputEdit {
    Tell(bool),
    ClearCount,
    ClearUsage,
    Write(u8, u64),
}

impl InputEdit {
    // An input after the edit.
    pub fn apply(self, input: Input) -> Input
        ensures { result ≡ input_edited self input }
    {
        match self {
            InputEdit::Tell(on) => tell(input, on),
            InputEdit::ClearCount => Input { count: 0, ..input },
            InputEdit::ClearUsage => Input { usage: 0, ..input },
            InputEdit::Write(flags, count) => input_written(input, flags, count),
        }
    }
}

// What is done to one relay: a command switches or clears, an entry of a WriteDevices message writes (flags, state).
#[derive(Clone, Copy, Debug, PartialEq, Eq)]
pub enum RelayEdit {
    Close,
    Open,
    Toggle,
    ClearUsage,
    Write(u8, u8),
}

impl RelayEdit {
    // A relay after the edit.
    pub fn apply(self, relay: Relay) -> Relay
        ensures { result ≡ relay_edited self relay }
    {
        match self {
            RelayEdit::Close => Relay {
                closed: true,
                ..relay
            },
            RelayEdit::Open => Relay {
                closed: false,
                ..relay
            },
            RelayEdit::Toggle => Relay {
                closed: !relay.closed,
                ..relay
            },
            RelayEdit::ClearUsage => Relay { usage: 0, ..relay },
            RelayEdit::Write(flags, state) => relay_written(relay, flags, state),
        }
    }
}

// There is no such flag, or a state above 1 is to be written. A state whose flag is not set is not used.
pub fn relay_fails(flags: u8, state: u8) -> bool
    ensures { result ≡ relay_fails flags state }
{
    3 < flags || bit(u16::from(flags), 0) && 1 < state
}
