// The C boundary: one thin exported function for each entry point, under the names of host/wellacorn.h.
// Board, halves and rooms go as pointers, a slice as pointer and length, settings and what a call came to by value. The lent row of pulses is seen
// here and in the crate lent alone: what the board needs of it goes by value. Where no row is lent the contract is the board's own. C reads the
// answer as the lowest byte of its word, and each contract says that this is all of it.

#![tactic(auto)]

ghost use Rattle.std.specs.Prelude.{◌≡◌, ◌<◌, length};
ghost use Rattle.ring.specs.Ring.{row_after};
ghost use Rattle.powerup.specs.PowerUp.{powered_up};
ghost use Rattle.halves.specs.Halves.{dropped};
ghost use Rattle.pieces.specs.Effects.{Ends, Answers};
ghost use Rattle.pieces.specs.Pieces.{bytes_call, halves_after, rooms_after};
ghost use Rattle.filling.specs.Filling.{row_emptied};
ghost use Rattle.board.specs.Calls.{level_call, pass_call, passed_in, connect_call, close_call, collect_call, fill_call, empty_call};

use pieces::Done;
use powerup::Settings;
use ring::Pulse;
use rows::Board;

// The box at power-up, with what the host sets.
#[unsafe(no_mangle)]
pub extern "C" fn wellacorn_power_up(board: &mut Board, s: Settings)
    ensures { board.new ≡ powered_up s }
{
    powerup::power_up(board, s);
}

// Input k is told its level, 0 or 1.
#[unsafe(no_mangle)]
pub extern "C" fn wellacorn_level(board: &mut Board, k: u8, v: u8) -> Done
    ensures ends { Ends (level_call k v board.old) board.new result }
    ensures byte { result.answer < 256 }
{
    board::level(board, k, v)
}

// d ms have passed. Where no pulse ends in them the row is not looked into.
#[unsafe(no_mangle)]
pub extern "C" fn wellacorn_pass(board: &mut Board, row: &[Pulse], d: u32) -> Done
    ensures ends { Ends (pass_call d row.now board.old) board.new result }
    ensures byte { result.answer < 256 }
{
    let answer = match pulses::at_once(board, row.len(), d) {
        Err(refusal) => refusal.number(),
        Ok(false) => numbers::SERVED,
        Ok(true) => {
            // copied here, or the compiler would store the row for this call in front of the test
            let again = row;
            wellacorn_pass_pulsed(board, again, d)
        }
    };
    board::passed(answer)
}

// The same, by its answer's number, as C has it: the row is looked into at the ends of pulses. No entry point of the header: it is exported so
// that the compiler keeps it apart, and saves no register for it in a call in which no pulse ends.
#[unsafe(no_mangle)]
pub extern "C" fn wellacorn_pass_pulsed(board: &mut Board, row: &[Pulse], d: u32) -> u8
    ensures { Ends (pass_call d row.now board.old) board.new (passed_in result) }
{
    let mut ending = match pulses::start(board, row.len(), d) {
        Ok(ending) => ending,
        Err(refusal) => return refusal.number(),
    };
    while let Some(end) = ending {
        let running = lent::pulse_at(row, end.running);
        let next = lent::pulse_at(row, end.next);
        ending = pulses::turn(board, running, next, end.rest);
    }
    numbers::SERVED
}

// Connection c is opened at a rank, strict or not.
#[unsafe(no_mangle)]
pub extern "C" fn wellacorn_connect(
    board: &mut Board,
    halves: &mut [[u64; 3]; 4],
    c: u8,
    rank: u8,
    strict: u8,
) -> Done
    ensures ends { Ends (connect_call c rank strict board.old) board.new result }
    ensures halves_after { halves.new ≡ dropped c result.answer halves.old }
    ensures byte { result.answer < 256 }
{
    board::connect(board, halves, c, rank, strict)
}

// Connection c is closed.
#[unsafe(no_mangle)]
pub extern "C" fn wellacorn_close(board: &mut Board, halves: &mut [[u64; 3]; 4], c: u8) -> Done
    ensures ends { Ends (close_call c board.old) board.new result }
    ensures halves_after { halves.new ≡ dropped c result.answer halves.old }
    ensures byte { result.answer < 256 }
{
    board::close(board, halves, c)
}

// Bytes of connection c.
#[unsafe(no_mangle)]
pub extern "C" fn wellacorn_bytes(
    board: &mut Board,
    halves: &mut [[u64; 3]; 4],
    rooms: &mut [u8; 4096],
    row: &mut [Pulse],
    c: u8,
    piece: &[u8],
    reply: &mut [u8],
) -> Done
    ensures answers { Answers (bytes_call c piece.now (length reply.old) (length row.old) board.old halves.old rooms.old) board.new reply.old reply.new result }
    ensures halves_after { halves.new ≡ halves_after c piece.now (length reply.old) (length row.old) board.old halves.old rooms.old }
    ensures rooms_after { rooms.new ≡ rooms_after c piece.now (length reply.old) (length row.old) board.old halves.old rooms.old }
    ensures row_after { row.new ≡ row_after board.old (bytes_call c piece.now (length reply.old) (length row.old) board.old halves.old rooms.old).did.board row.old }
    ensures byte { result.answer < 256 }
{
    let taken = board::bytes(board, halves, rooms, row.len(), c, piece, reply);
    if let Some(place) = taken.at {
        lent::put_pulse(row, place, taken.pulse);
    }
    taken.done
}

// What is due is collected on connection c.
#[unsafe(no_mangle)]
pub extern "C" fn wellacorn_collect(board: &mut Board, c: u8, reply: &mut [u8]) -> Done
    ensures answers { Answers (collect_call c (length reply.old) board.old) board.new reply.old reply.new result }
    ensures byte { result.answer < 256 }
{
    board::collect(board, c, reply)
}

// A place of the second deck is filled. Of the row its length is asked, and no record is looked at.
#[unsafe(no_mangle)]
pub extern "C" fn wellacorn_fill(board: &mut Board, row: &[Pulse], place: u8) -> Done
    ensures ends { Ends (fill_call place (length row.now) board.old) board.new result }
    ensures byte { result.answer < 256 }
{
    board::fill(board, row.len(), place)
}

// A place of the second deck is emptied: the pulses that stand lose its relays.
#[unsafe(no_mangle)]
pub extern "C" fn wellacorn_empty(board: &mut Board, row: &mut [Pulse], place: u8) -> Done
    ensures ends { Ends (empty_call place (length row.old) board.old) board.new result }
    ensures row_after { row.new ≡ row_emptied place board.old row.old }
    ensures byte { result.answer < 256 }
{
    let records = row.len();
    let q = board.queue();
    let n = filling::losing_of(board, records, place);
    lent::lose_first(row, q, n, place);
    board::empty(board, records, place)
}
