// The alarms of an input and of a relay. The Monitor message and the read block judge a count by two different rules, so a rule is named by
// what it says, and whoever shows an alarm says which one it goes by. It takes every record and every number.

#![tactic(auto)]

ghost use Rattle.std.specs.Prelude.{◌≡◌};
ghost use Rattle.alarms.specs.Alarms.{alarm_state, alarm_above, alarm_at_or_above};

use records::Input;

// The switch is set, and the input is on.
#[tactic(auto, unfolding(crate::specs::Alarms::alarm_state))]
pub fn alarm_state(i: Input) -> bool
    ensures { result ≡ alarm_state i }
{
    i.alarm && i.level
}

// The number is above its setpoint, if it has one.
#[tactic(auto, unfolding(crate::specs::Alarms::alarm_above))]
pub fn alarm_above(number: u64, setpoint: u64) -> bool
    ensures { result ≡ alarm_above number setpoint }
{
    setpoint != 0 && setpoint < number
}

// The number is at its setpoint or above it, if it has one.
#[tactic(auto, unfolding(crate::specs::Alarms::alarm_at_or_above))]
pub fn alarm_at_or_above(number: u64, setpoint: u64) -> bool
    ensures { result ≡ alarm_at_or_above number setpoint }
{
    setpoint != 0 && setpoint <= number
}
