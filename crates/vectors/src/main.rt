// Runs the published strings and frames, and frames at the edges of document 01, and prints what becomes of each.
// What it must print is in `stdout`, taken from the documents (docs/VECTORS.md says which line from where).

#![tactic(auto)]

use pieces::Done;
use powerup::{InputSettings, Settings};
use refusals::Refusal;
use rows::{Board, ROWS};
use std::{fmt, io};
use steps::{Half, Outcome};

// The strings of 001, "CRC Test Strings".
const STRINGS: [&str; 3] = ["0123456789", "ABCDEFG", ""];

// The frames of 001, "Example Transactions" and "Example Messages", and the Monitor capture of 000.
const PUBLISHED: [(&str, &[u8]); 8] = [
    (
        "login request",
        b"\x01\x00\x0d\x60\xb7\x7e\x05\x6a\x6e\x69\x6f\x72\x05\x6a\x6e\x69\x6f\x72",
    ),
    (
        "login request, sum ffff",
        b"\x01\x00\x0d\xff\xff\x7e\x05\x6a\x6e\x69\x6f\x72\x05\x6a\x6e\x69\x6f\x72",
    ),
    ("login acknowledgement", b"\x01\x00\x02\xf0\x20\x7d\x80"),
    (
        "registry subscription",
        b"\x01\x00\x2c\x2c\x04\x0f\x00\x03\x00\x00\x0b\x44\x65\x76\x69\x63\x65\x2f\x44\x65\x73\x63\x00\x01\
          \x08\x24\x56\x65\x72\x73\x69\x6f\x6e\x00\x02\x0d\x24\x53\x65\x72\x69\x61\x6c\x4e\x75\x6d\x62\x65\
          \x72",
    ),
    (
        "registry subscription response",
        b"\x01\x00\x31\x98\x9a\x0c\x00\x03\x00\x00\x16\x6a\x72\x33\x31\x30\x20\x44\x65\x76\x65\x6c\x6f\x70\
          \x6d\x65\x6e\x74\x20\x55\x6e\x69\x74\x00\x01\x08\x32\x2e\x30\x31\x2e\x33\x34\x36\x00\x02\x07\x34\
          \x39\x30\x34\x30\x30\x34",
    ),
    (
        "read registry keys",
        b"\x01\x00\x13\xbe\x61\x0b\x00\x01\x00\xde\x0d\x24\x53\x65\x72\x69\x61\x6c\x4e\x75\x6d\x62\x65\x72",
    ),
    (
        "registry response",
        b"\x01\x00\x0f\x9e\xd2\x0c\x00\x01\x00\xde\x09\x31\x30\x35\x31\x30\x30\x33\x32\x38",
    ),
    (
        "monitor capture",
        b"\x01\x00\x60\x68\x85\x01\x0e\x6a\x72\x33\x31\x30\x20\x76\x32\x2e\x31\x34\x2e\x31\x37\x00\x00\x00\
          \x00\x00\x00\x00\x00\x00\x00\x00\x00\x00\x00\x00\x00\x00\x00\x00\x00\x00\x00\x00\x00\x00\x00\x00\
          \x00\x00\x00\x00\x00\x00\x00\x00\x00\x00\x00\x00\x00\x00\x00\x00\x00\x00\x00\x00\x00\x00\x00\x00\
          \x00\x00\x00\x00\x00\x00\x00\x00\x00\x00\x00\x00\x00\x00\x00\x00\x00\x00\x00\x00\x00\x00\x00\x01\
          \x19\x33\xca\x9f\xeb",
    ),
];

// Small frames at the edges: a sum that differs in one bit, no content, and 0x01 and 0x06 inside content.
const SMALL: [(&str, &[u8]); 5] = [
    (
        "acknowledgement, one bit off",
        b"\x01\x00\x02\xf0\x21\x7d\x80",
    ),
    ("N 0, sum 0000", b"\x01\x00\x00\x00\x00"),
    ("N 0, sum ffff", b"\x01\x00\x00\xff\xff"),
    ("N 0, sum 0001", b"\x01\x00\x00\x00\x01"),
    (
        "01 and 06 inside",
        b"\x01\x00\x06\x4c\xaa\x01\x06\x01\x06\x06\x01",
    ),
];

// The login request, the acknowledgement, 06, 07, the acknowledgement with one bit off, 00, and the first ten bytes of another frame.
const JOINED: &[u8] =
    b"\x01\x00\x0d\x60\xb7\x7e\x05\x6a\x6e\x69\x6f\x72\x05\x6a\x6e\x69\x6f\x72\x01\x00\x02\xf0\x20\x7d\
      \x80\x06\x07\x01\x00\x02\xf0\x21\x7d\x80\x00\x01\x00\x13\xbe\x61\x0b\x00\x01\x00\xde";

// ---- the framing alone

// What offered bytes came to; a whole message is one that the layers above would serve.
#[derive(Clone, Copy, PartialEq, Eq)]
enum Verdict {
    Waits,
    Whole,
    KeepAlive,
    Stray,
    TooLong,
    BadSum,
}

impl Verdict {
    fn of(outcome: Outcome, room: &[u8]) -> Verdict {
        match outcome {
            Outcome::Waiting(_) => Verdict::Waits,
            Outcome::KeepAlive => Verdict::KeepAlive,
            Outcome::Stray => Verdict::Stray,
            Outcome::Message(len, sum) => match frames::judge(len, sum, room, false) {
                Ok(()) => Verdict::Whole,
                Err(Refusal::TooLong) => Verdict::TooLong,
                Err(_) => Verdict::BadSum,
            },
        }
    }
}

impl fmt::Display for Verdict {
    fn fmt<W: fmt::Write>(&self, f: &mut fmt::Formatter<W>) -> fmt::Result {
        f.write_str(match self {
            Verdict::Waits => "waits",
            Verdict::Whole => "whole",
            Verdict::KeepAlive => "keep-alive",
            Verdict::Stray => "stray",
            Verdict::TooLong => "too long",
            Verdict::BadSum => "bad sum",
        })
    }
}

// What is half read, and a room of 01's 1,024 bytes.
#[derive(Drop)]
struct Reader {
    half: Half,
    room: [u8; 1024],
}

impl Reader {
    fn new() -> Reader {
        Reader {
            half: Half::NOTHING,
            room: [0; 1024],
        }
    }

    // One call of the framing: how many bytes of the piece it takes, and what they come to.
    fn offer(&mut self, piece: &[u8]) -> (usize, Verdict) {
        let fed = framing::feed(self.half, &mut self.room, piece);
        self.half = fed.outcome.half();
        (fed.taken, Verdict::of(fed.outcome, &self.room))
    }
}

// Whether a frame cut in two before byte k comes to the same as in one piece: this verdict, and this room.
fn alike(bytes: &[u8], k: usize, verdict: Verdict, room: &[u8; 1024]) -> bool {
    let Some((first, rest)) = bytes.split_at_checked(k) else {
        return false;
    };
    let mut reader = Reader::new();
    let (taken, _) = reader.offer(first);
    taken == k && reader.offer(rest) == (rest.len(), verdict) && reader.room == *room
}

// A frame in one piece, and then cut before each of its bytes.
fn frame(rt: &impl Print, name: &str, bytes: &[u8]) -> io::Result<()> {
    let mut reader = Reader::new();
    let (taken, verdict) = reader.offer(bytes);
    let cuts = (0..bytes.len())
        .filter(|&k| alike(bytes, k, verdict, &reader.room))
        .count();
    println!(rt;
        "{name}: taken {taken} of {}, {verdict}, alike in {cuts} cuts",
        bytes.len()
    )
}

// Joined bytes, offered again until they are used up: each call takes a byte at least.
fn stream(rt: &impl Print, name: &str, bytes: &[u8]) -> io::Result<()> {
    let mut reader = Reader::new();
    let mut rest = bytes;
    print!(rt; "{name}:")?;
    // as many turns as bytes are enough, since a call takes one at least
    for _ in 0..bytes.len() {
        if rest.is_empty() {
            break;
        }
        let (taken, verdict) = reader.offer(rest);
        print!(rt; " {taken} {verdict}")?;
        rest = rest.get(taken..).unwrap_or(&[]);
    }
    println!(rt; "")
}

// Frames at the limit of 1,024 bytes: one that is just held, with and without its true sum, and one byte more.
fn limits(rt: &impl Print) -> io::Result<()> {
    let mut held = [6; 1029];
    held[..5].copy_from_slice(b"\x01\x04\x00\xff\xff");
    frame(rt, "N 1024, sum ffff", &held)?;
    held[3..5].copy_from_slice(b"\x8b\x60");
    frame(rt, "N 1024, true sum", &held)?;
    held[4] = 0x61;
    frame(rt, "N 1024, one bit off", &held)?;
    let mut over = [1; 1030];
    over[..5].copy_from_slice(b"\x01\x04\x01\xff\xff");
    frame(rt, "N 1025, sum ffff", &over)
}

// Joined messages, and the longest frame of all with a keep-alive behind it.
fn streams(rt: &impl Print) -> io::Result<()> {
    stream(rt, "joined", JOINED)?;
    let mut longest = [6; 65541];
    longest[..3].copy_from_slice(b"\x01\xff\xff");
    stream(rt, "N 65535", &longest)
}

// ---- the box, with several connections

// A box, whose calls are printed by the handle.
#[derive(Drop)]
struct Trial<'a, R: Print> {
    rt: &'a R,
    board: Board,
    halves: [[u64; 3]; 4],
    rooms: [u8; 4096],
}

impl<'a, R: Print> Trial<'a, R> {
    // At power-up every input's first count setpoint is the one given; there is no other.
    fn new(rt: &'a R, setpoint_one: u32) -> Trial<'a, R> {
        let mut board = Board {
            rows: [[0; 8]; ROWS],
        };
        let input = InputSettings {
            setpoint_one,
            setpoint_two: 0,
            usage_setpoint: 0,
            alarm: false,
        };
        powerup::power_up(
            &mut board,
            Settings {
                inputs: [input; 8],
                relays: [0; 8],
            },
        );
        Trial {
            rt,
            board,
            halves: [[0; 3]; 4],
            rooms: [0; 4096],
        }
    }

    // What a call came to, and the relays after it: the box's own eight, channel 1 the lowest bit.
    fn show(&self, name: &str, done: Done) -> io::Result<()> {
        let relays = hexadecimal::relay_number(&self.board) % 256;
        println!(self.rt;
            "{name}: answer {} taken {} reply {} relays {relays:02x}",
            done.answer, done.taken, done.len
        )
    }

    // Connection c is opened, strict or not.
    fn open(&mut self, c: u8, rank: u8, strict: u8) -> Done {
        board::connect(&mut self.board, &mut self.halves, c, rank, strict)
    }

    // The same, not strict, and shown.
    fn connect(&mut self, name: &str, c: u8, rank: u8) -> io::Result<()> {
        let done = self.open(c, rank, 0);
        self.show(name, done)
    }

    fn close(&mut self, name: &str, c: u8) -> io::Result<()> {
        let done = board::close(&mut self.board, &mut self.halves, c);
        self.show(name, done)
    }

    fn collect(&mut self, name: &str, c: u8) -> io::Result<()> {
        let done = board::collect(&mut self.board, c, &mut [0; 4096]);
        self.show(name, done)
    }

    fn level(&mut self, name: &str, k: u8, v: u8) -> io::Result<()> {
        let done = board::level(&mut self.board, k, v);
        self.show(name, done)
    }

    // A piece of connection c, and its reply. No time passes here, so that no row of pulses is kept: it is told 31 records.
    fn offer(&mut self, c: u8, bytes: &[u8], reply: &mut [u8]) -> Done {
        board::bytes(
            &mut self.board,
            &mut self.halves,
            &mut self.rooms,
            31,
            c,
            bytes,
            reply,
        )
        .done
    }

    // The same with a reply buffer of 4,096 bytes, shown.
    fn piece(&mut self, name: &str, c: u8, bytes: &[u8]) -> io::Result<()> {
        let done = self.offer(c, bytes, &mut [0; 4096]);
        self.show(name, done)
    }

    // Four connections are opened; a fifth number, an open one and a rank above 2 are refused.
    fn opening(&mut self) -> io::Result<()> {
        self.connect("open 0 at 2", 0, 2)?;
        self.connect("open 1 at 1", 1, 1)?;
        self.connect("open 2 at 0", 2, 0)?;
        self.connect("open 4 at 2", 4, 2)?;
        self.connect("open 0 at 3", 0, 3)?;
        self.connect("open 3 at 3", 3, 3)
    }

    // Half a block command on 0, a toggle on 1 in between, the rest of the block with a keep-alive behind it.
    fn mixing(&mut self) -> io::Result<()> {
        self.piece("0 block, first half", 0, b"\x01\x00\x04\xff")?;
        self.piece("1 toggle 2", 1, b"\x01\x00\x04\xff\xff\x0a\x03\x00\x02")?;
        self.piece("0 block, second half", 0, b"\xff\x0a\x0a\x05\x05\x06")?;
        self.piece("0 keep-alive", 0, b"\x06")
    }

    // A command at rank 0, and a piece of a connection that is shut.
    fn refusing(&mut self) -> io::Result<()> {
        self.piece("2 toggle 1", 2, b"\x01\x00\x04\xff\xff\x0a\x03\x00\x01")?;
        self.piece("3 is shut", 3, b"\x06")
    }

    // The marks: both openings at rank 1 and 2 are due, each once; rank 0 never; a mask of 0 changes nothing.
    fn collecting(&mut self) -> io::Result<()> {
        self.collect("collect 0", 0)?;
        self.collect("collect 0 again", 0)?;
        self.collect("collect 2", 2)?;
        self.piece(
            "0 block of none",
            0,
            b"\x01\x00\x04\xff\xff\x0a\x0a\x00\xff",
        )?;
        self.collect("collect 0 after it", 0)?;
        self.level("input 1 rises", 1, 1)?;
        self.collect("collect 0 after that", 0)
    }

    // What is half read when a connection is closed is gone.
    fn closing(&mut self) -> io::Result<()> {
        self.piece("1 half a message", 1, b"\x01\x00\x04\xff\xff\x0a\x03")?;
        self.close("close 1", 1)?;
        self.close("close 1 again", 1)?;
        self.connect("open 1 at 1", 1, 1)?;
        self.piece("1 the other half", 1, b"\x00\x02")
    }

    // 01, Edges, 11: contents of 1,024 and 1,025 bytes, and a reply buffer that is one byte short.
    fn edges(&mut self) -> io::Result<()> {
        let mut held = [0; 1029];
        held[..5].copy_from_slice(b"\x01\x04\x00\xff\xff");
        self.piece("0 N 1024", 0, &held)?;
        let mut over = [0; 1030];
        over[..5].copy_from_slice(b"\x01\x04\x01\xff\xff");
        self.piece("0 N 1025", 0, &over)?;
        let short = self.offer(0, b"\x06", &mut [0; 4095]);
        self.show("0 buffer 4095", short)?;
        self.piece("0 buffer 4096", 0, b"\x06")
    }

    // ---- a strict connection beside one that is not (02, M-103)

    // A checksum that is not the content's: 0xFFFF on 0, which is strict, and on 1, which is not; also of an empty content.
    fn unchecked(&mut self) -> io::Result<()> {
        let block = b"\x01\x00\x04\xff\xff\x0a\x0a\x05\x05";
        let nothing = b"\x01\x00\x00\xff\xff";
        self.piece("0 strict, sum ffff", 0, block)?;
        self.piece("0 strict, N 0, sum ffff", 0, nothing)?;
        self.piece("1 sum ffff", 1, block)?;
        self.piece("1 N 0, sum ffff", 1, nothing)
    }

    // The content's own checksum, which is 0xFFFF in the second.
    fn checked(&mut self) -> io::Result<()> {
        self.piece(
            "0 strict, true sum",
            0,
            b"\x01\x00\x04\x7b\xa3\x0a\x0a\x02\x02",
        )?;
        self.piece(
            "0 strict, true sum ffff",
            0,
            b"\x01\x00\x04\xff\xff\x0a\x0a\xd1\xb2",
        )
    }

    // ---- the count alarms of input 1 (02, M-101)

    // A frame of connection 0 at rank 2, and its reply.
    fn ask(&mut self, bytes: &[u8]) -> [u8; 4096] {
        let mut reply = [0; 4096];
        self.offer(0, bytes, &mut reply);
        reply
    }

    // A frame that writes this count; then its two count alarms, as the read block and as the Monitor message show them.
    fn alarms(&mut self, count: u8) -> io::Result<()> {
        let mut write =
            *b"\x01\x00\x12\xff\xff\x17\x00\x01\x00\x00\x00\x00\x00\x00\x01\xff\x00\x05\x02\x00\x00\x00\x00";
        write[22] = count;
        self.ask(&write);
        let block = self.ask(b"\x01\x00\x0b\xff\xff\x15\x00\x01\x00\x00\x00\x00\x00\x00\x01\xff");
        let monitor = self.ask(b"\x01\x00\x03\xff\xff\x05\x00\x01");
        println!(self.rt;
            "count {count}: read block {}{}, Monitor {}{}",
            block[24], block[25], monitor[28], monitor[29]
        )
    }
}

fn box_of_four(rt: &impl Print) -> io::Result<()> {
    let mut tried = Trial::new(rt, 0);
    tried.opening()?;
    tried.mixing()?;
    tried.refusing()?;
    tried.collecting()?;
    tried.closing()?;
    tried.edges()
}

fn strict_beside_not(rt: &impl Print) -> io::Result<()> {
    let mut tried = Trial::new(rt, 0);
    tried.open(0, 2, 1);
    tried.open(1, 2, 0);
    tried.unchecked()?;
    tried.checked()
}

fn setpoint_of_100(rt: &impl Print) -> io::Result<()> {
    let mut tried = Trial::new(rt, 100);
    tried.open(0, 2, 0);
    for count in [99, 100, 101] {
        tried.alarms(count)?;
    }
    Ok(())
}

fn main(rt: HostRuntime) -> io::Result<()> {
    for string in STRINGS {
        println!(&rt; "crc {:04x} \"{string}\"", crc::crc16(string.as_bytes()))?;
    }
    for (name, bytes) in PUBLISHED {
        frame(&rt, name, bytes)?;
    }
    for (name, bytes) in SMALL {
        frame(&rt, name, bytes)?;
    }
    limits(&rt)?;
    streams(&rt)?;
    box_of_four(&rt)?;
    strict_beside_not(&rt)?;
    setpoint_of_100(&rt)
}
