// What the change to pulsed relays says, sentence by sentence, over the definitions that the contracts of the crate pulses cite. This crate
// alone knows the queue as a list from which the first is taken. There is no code here.

#![tactic(auto)]
