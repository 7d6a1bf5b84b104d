// The box at power-up: every word 0 but what the host sets.

#![tactic(auto)]

ghost use Rattle.std.specs.Prelude.{◌≡◌};
ghost use Rattle.powerup.specs.PowerUp.{fresh_input, fresh_relay, powered_up};

use records::{Input, Relay};
use rows::{Board, ROWS};

// What the host sets of an input at power-up; alarm is the alarm switch.
#[repr(C)]
#[derive(Clone, Copy)]
pub struct InputSettings {
    pub setpoint_one: u32,
    pub setpoint_two: u32,
    pub usage_setpoint: u64,
    pub alarm: bool,
}

// What the host sets at power-up; of a relay its usage setpoint.
#[repr(C)]
#[derive(Clone, Copy)]
pub struct Settings {
    pub inputs: [InputSettings; 8],
    pub relays: [u64; 8],
}

impl InputSettings {
    // The input at power-up.
    fn fresh_input(self) -> Input
        ensures { result ≡ fresh_input self }
    {
        Input {
            level: false,
            alarm: self.alarm,
            count: 0,
            setpoint_one: u64::from(self.setpoint_one),
            setpoint_two: u64::from(self.setpoint_two),
            usage: 0,
            usage_setpoint: self.usage_setpoint,
        }
    }
}

fn fresh_relay(usage_setpoint: u64) -> Relay
    ensures { result ≡ fresh_relay usage_setpoint }
{
    Relay {
        closed: false,
        usage: 0,
        usage_setpoint,
    }
}

// The box at power-up, with what the host sets.
pub fn power_up(board: &mut Board, s: Settings)
    ensures { board.new ≡ powered_up s }
{
    board.rows = [[0; 8]; ROWS];
    for (k, settings) in s.inputs.iter().enumerate() {
        board.put_input(k + 1, settings.fresh_input());
    }
    for (k, &setpoint) in s.relays.iter().enumerate() {
        board.put_relay(k + 1, fresh_relay(setpoint));
    }
}
