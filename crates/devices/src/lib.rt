// The devices and their IDs: which input or relay an ID names, and the ID of each, both by the one formula and without a list. It takes every
// number. Which of the devices the box has is not asked here.

#![tactic(auto)]

ghost use Rattle.std.specs.Prelude.{◌≡◌, cond, ◌+◌, ◌*◌, ◌≤◌};
ghost use Rattle.devices.specs.Devices.{is_one_of};

// How many inputs and how many relays the formula goes to: here alone, as in specs/Devices.
const INPUTS: u64 = 8;

const RELAYS: u64 = 16;

// An input or a relay, by its channel.
#[derive(Clone, Copy, Debug, PartialEq, Eq)]
pub enum Device {
    Input(u8),
    Relay(u8),
}

// The ID of number k of so many: 256k + 255, and `before` in front of it; 0 where k is none of them.
fn id_from(before: u64, many: u64, k: u8) -> u64
    requires { before ≤ 65536 }
    ensures { result ≡ cond (is_one_of many k) (before + 256 * k + 255) 0 }
{
    let number = u64::from(k);
    if 1 <= number && number <= many {
        return before + 256 * number + 255;
    }
    0
}

impl Device {
    ghost use Rattle.devices.specs.Devices.{id_of, device_of};

    // The device that has an ID, if one has. Its low byte is 255; what stands above it is an input's number, or 256 more than a relay's.
    #[tactic(auto, unfolding(crate::specs::Devices::device_of))]
    pub fn from_id(id: u64) -> Option<Device>
        ensures { result ≡ device_of id }
    {
        if id % 256 != 255 {
            return None;
        }
        let above = id / 256;
        if 1 <= above && above <= INPUTS {
            return Some(Device::Input(above as u8));
        }
        if 257 <= above && above <= 256 + RELAYS {
            return Some(Device::Relay((above - 256) as u8));
        }
        None
    }

    // Its ID; 0 for a channel that none has.
    #[tactic(auto, unfolding(crate::specs::Devices::id_of))]
    pub fn id(self) -> u64
        ensures { result ≡ id_of self }
    {
        match self {
            Device::Input(k) => id_from(0, INPUTS, k),
            Device::Relay(k) => id_from(65536, RELAYS, k),
        }
    }
}
