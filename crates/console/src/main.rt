// The console: lines of hexadecimal in, two digits of the answer and four of the relays a line out. Each line is one piece for connection 0,
// which is open at rank 2.
// The struct `Console` holds the board, the half-read messages (halves), their content (rooms), the line that has not ended and the reply buffer.
// It alone knows lines; their digits are the crate hexadecimal's. `main`, `read_all`, `read_on`, `read_in` and `write_out` read and write and do
// nothing else; every other function is on slices and numbers, and its contract says all that it answers and leaves.

#![tactic(auto)]

ghost use Rattle.std.specs.Prelude.{◌≡◌, ◌+◌, ◌≤◌, ◌<◌, length, replicate, take};
ghost use Rattle.laws.specs.Put.{Wrote};
ghost use Rattle.pieces.specs.Effects.{Answers};
ghost use Rattle.console.specs.Lines.{started, started_halves, line_halves, line_rooms, shown};

use pieces::Done;
use powerup::{InputSettings, Settings};
use rows::{Board, ROWS};
use std::io::{Read, Write};

// What is held between two bytes of the input: of the line that has not ended, used characters stand at the front of line, which has a length
// beside it since there is no heap.
#[derive(Drop)]
struct Console {
    board: Board,
    halves: [[u64; 3]; 4],
    rooms: [u8; 4096],
    line: [u8; 2059],
    used: usize,
    reply: [u8; 4096],
    ghost in_line: { used ≤ 2059 },
}

impl Console {
    ghost use Rattle.console.specs.Console.{held_of, so_far, line_held, ended, kept, step, says, run, said, at_end, said_at_end};
    ghost use Rattle.console.specs.Console.{every_read, reads_left, Spent};

    // The box at power-up with nothing set, and connection 0 open at rank 2, not strict.
    fn start() -> Console
        ensures board_after { result.board ≡ started }
        ensures halves_after { result.halves ≡ started_halves (replicate 4 (replicate 3 0)) }
        ensures rooms_after { result.rooms ≡ replicate 4096 0 }
        ensures line_after { result.line ≡ replicate 2059 0 }
        ensures reply_after { result.reply ≡ replicate 4096 0 }
        ensures empty_line { result.used ≡ 0 }
    {
        let mut board = Board {
            rows: [[0; 8]; ROWS],
        };
        let mut halves = [[0; 3]; 4];
        let nothing = InputSettings {
            setpoint_one: 0,
            setpoint_two: 0,
            usage_setpoint: 0,
            alarm: false,
        };
        powerup::power_up(
            &mut board,
            Settings {
                inputs: [nothing; 8],
                relays: [0; 8],
            },
        );
        board::connect(&mut board, &mut halves, 0, 2, 0);
        Console {
            board,
            halves,
            rooms: [0; 4096],
            line: [0; 2059],
            used: 0,
            reply: [0; 4096],
        }
    }

    // ---- lines out of the input

    // The line's effect. The reply is written at the front of the reply buffer and goes nowhere: the console prints its answer number alone.
    // No time passes on the console, so that no record of a row of pulses is ever read: it is told 31 records, and keeps none.
    fn feed_line(&mut self) -> Done
        ensures answers { Answers (line_held (held_of self.old)) self.new.board self.old.reply self.new.reply result }
        ensures halves_after { self.new.halves ≡ line_halves (so_far (held_of self.old)) self.old.board self.old.halves self.old.rooms }
        ensures rooms_after { self.new.rooms ≡ line_rooms (so_far (held_of self.old)) self.old.board self.old.halves self.old.rooms }
        ensures line_after { (self.new.line ≡ self.old.line) × (self.new.used ≡ self.old.used) }
        ensures byte { result.answer < 256 }
    {
        let mut piece = [0; 1029];
        match hexadecimal::parse(&self.line[..self.used], &mut piece) {
            Some(count) => {
                board::bytes(
                    &mut self.board,
                    &mut self.halves,
                    &mut self.rooms,
                    31,
                    0,
                    &piece[..count],
                    &mut self.reply,
                )
                .done
            }
            // FF is printed for a bad line: no answer of the box, and so no name of the crate numbers
            None => Done {
                taken: 0,
                len: 0,
                place: 0,
                answer: 255,
            },
        }
    }

    // The line has ended: it is fed, and its answer stands behind the output so far, which ends at `at`. Gives the output's new end.
    fn end_line(&mut self, out: &mut [u8], at: usize) -> usize
        requires { at + 7 ≤ length out.old }
        ensures held_after { held_of self.new ≡ ended (held_of self.old) }
        ensures wrote { Wrote at (shown (line_held (held_of self.old))) out.old out.new result }
    {
        let done = self.feed_line();
        self.used = 0;
        let answer = done.answer as u8; // all of it
        let text = hexadecimal::digits(answer, hexadecimal::relay_number(&self.board));
        copying::copy(out, at, &text)
    }

    // A character of a line is kept while there is room.
    #[tactic(auto, unfolding(crate::specs::Console::kept))]
    fn keep(&mut self, byte: u8)
        ensures { held_of self.new ≡ kept byte (held_of self.old) }
    {
        if self.used < 2059 {
            self.line[self.used] = byte;
            self.used += 1;
        }
    }

    // One byte of the input: a newline ends the line, another is kept.
    #[tactic(auto, unfolding(crate::specs::Console::step, crate::specs::Console::says), using(crate::proofs::Stepping::nothing_wrote))]
    fn take_byte(&mut self, byte: u8, out: &mut [u8], at: usize) -> usize
        requires { at + 7 ≤ length out.old }
        ensures held_after { held_of self.new ≡ step (held_of self.old) byte }
        ensures wrote { Wrote at (says (held_of self.old) byte) out.old out.new result }
    {
        if byte == b'\n' {
            return self.end_line(out, at);
        }
        self.keep(byte);
        at
    }

    // The bytes of a read, one by one: no more than the 4,096 that a read can bring, so that out has room for an answer a byte. The output
    // stands at the front of out; gives its length.
    fn take_read(&mut self, input: &[u8], out: &mut [u8; 28672]) -> usize
        ensures held_after { held_of self.new ≡ run (held_of self.old) (take 4096 input.now) }
        ensures wrote { Wrote 0 (said (held_of self.old) (take 4096 input.now)) out.old out.new result }
        ensures fits { result ≤ 28672 }
    {
        let count = input.len().min(4096);
        let mut len = 0;
        for &byte in &input[..count] {
            len = self.take_byte(byte, out, len);
        }
        len
    }

    // The end of the input: a last line without a newline counts if it is not empty. The output stands at the front of out; gives its length.
    #[tactic(auto, unfolding(crate::specs::Console::at_end, crate::specs::Console::said_at_end), using(crate::proofs::Stepping::nothing_wrote))]
    fn take_end(&mut self, out: &mut [u8; 7]) -> usize
        ensures held_after { held_of self.new ≡ at_end (held_of self.old) }
        ensures wrote { Wrote 0 (said_at_end (held_of self.old)) out.old out.new result }
        ensures fits { result ≤ 7 }
    {
        if self.used == 0 {
            return 0;
        }
        self.end_line(out, 0)
    }

    // ---- reading and writing

    // A proved loop has to end, and nothing says that the input does: it counts its reads down, from a number that no run uses up.
    fn every_read() -> u64
        ensures { result ≡ every_read }
    {
        u64::MAX
    }

    // How many reads are left behind one that brought so many bytes: none where it brought none, which ends the input, or where its answers could
    // not be written.
    #[tactic(auto, unfolding(crate::specs::Console::reads_left))]
    fn reads_left(left: u64, brought: usize, written: bool) -> u64
        ensures { result ≡ reads_left left brought written }
    {
        if brought == 0 || !written {
            0
        } else {
            left.saturating_sub(1)
        }
    }

    // One read, and the answers to the lines that end in it. A read that brings nothing has no answers. Gives how many reads may follow.
    #[tactic(auto, unfolding(crate::specs::Console::reads_left, crate::specs::Console::Spent))]
    fn read_on(&mut self, rt: &HostRuntime, left: u64) -> u64
        ensures { Spent left result }
    {
        let mut input = [0; 4096];
        let brought = read_in(rt, &mut input);
        let mut out = [0; 28672];
        let len = self.take_read(&input[..brought], &mut out);
        let written = write_out(rt, &out[..len]);
        Self::reads_left(left, brought, written)
    }

    // Reads while a read may follow, so to the end of the input. No `for` with a `break`: its end would not say that no read was left.
    #[tactic(auto, unfolding(crate::specs::Console::Spent))]
    fn read_all(&mut self, rt: &HostRuntime) -> u64
        ensures { result ≡ 0 }
    {
        let mut left = Self::every_read();
        while left != 0 {
            left = self.read_on(rt, left);
        }
        left
    }
}

// How many bytes one read of standard input brought; one that fails brings none.
fn read_in(rt: &HostRuntime, input: &mut [u8; 4096]) -> usize
    ensures { result ≤ 4096 }
{
    rt.stdin().read(input).unwrap_or(0)
}

// Whether the bytes could be written.
fn write_out(rt: &HostRuntime, bytes: &[u8]) -> bool {
    rt.stdout().write_all(bytes).is_ok()
}

fn main(rt: HostRuntime) {
    let mut console = Console::start();
    console.read_all(&rt);
    let mut out = [0; 7];
    let len = console.take_end(&mut out);
    write_out(&rt, &out[..len]);
}
