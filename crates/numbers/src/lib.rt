// The answer numbers of 01's table, and those that 02 adds, each by its name. A number stands here for the code and in specs/Numbers for the
// definitions, and who answers with one uses its name; the tests, the header and these are held to each other. There is no function here.

#![tactic(auto)]

pub const WAITING: u8 = 0;

pub const SERVED: u8 = 1;

pub const KEEP_ALIVE: u8 = 2;

pub const NO_CONNECTION: u8 = 3;

pub const SHORT_BUFFER: u8 = 4;

pub const STRAY: u8 = 5;

pub const TOO_LONG: u8 = 6;

pub const BAD_CHECKSUM: u8 = 7;

pub const NOT_OFFERED: u8 = 8;

pub const LOW_RANK: u8 = 9;

pub const OUT_OF_RANGE: u8 = 11;

pub const ALREADY_OPEN: u8 = 12;

pub const BAD_RANK: u8 = 13;

pub const QUEUE_FULL: u8 = 14;

// In the place of 10, which is not given.

pub const ENDS_EARLY: u8 = 20;

pub const LEFT_OVER: u8 = 21;

pub const LIST_CUT: u8 = 22;
