// A piece of bytes from a connection: it is fed to the connection's half-read message, and a message that ends is judged and served.
// Every public function takes every input. A refused call takes nothing and changes nothing. Of the lent row of pulses only its length comes here.
// Board, halves and rooms stay parameters of their own here and in the crate board: the host lends each by its own pointer (C).

#![tactic(auto)]

ghost use Rattle.std.specs.Prelude.{◌≡◌, true, ◌<◌, ◌≤◌, length};
ghost use Rattle.steps.specs.Steps.{half_after};
ghost use Rattle.framing.specs.Reading.{run_of, got_of};
ghost use Rattle.connections.specs.Lines.{is_open};
ghost use Rattle.answers.specs.Calls.{Does};
ghost use Rattle.halves.specs.Halves.{put_half};
ghost use Rattle.halves.specs.Rooms.{room_at, put_room};
ghost use Rattle.pieces.specs.Effects.{made_of, Answers};
ghost use Rattle.pieces.specs.Pieces.{answered, fed, fed_call, bytes_call, halves_after, rooms_after, Ready};

use answers::Served;
use framing::Fed;
use refusals::Refusal;
use rows::Board;
use steps::{Half, Outcome};

// What a call came to: the bytes taken of a piece, the reply's length, the place of the first byte of a content that is missing or left over,
// where that is why it is refused (else 0), and the answer number. The number has a whole word, of which the host reads the lowest byte, the first
// on its machines: a struct with a gap is copied by words that overlap, and the next load waits for them. That this byte is all of it stands in the
// contract of every function that gives a Done.
#[repr(C)]
#[derive(Clone, Copy, Debug, PartialEq, Eq)]
pub struct Done {
    pub taken: usize,
    pub len: usize,
    pub place: usize,
    pub answer: u64,
}

// What the plain machine gave back, and the bytes taken.
pub fn finish(s: Served, taken: usize) -> Done
    ensures value { result ≡ made_of s taken }
    ensures byte { result.answer < 256 }
{
    Done {
        taken,
        len: s.len,
        place: s.place,
        answer: u64::from(s.answer),
    }
}

// A message that has ended is judged, and served where it is whole.
fn judge_message(
    board: &mut Board,
    c: u8,
    len: u16,
    sum: u16,
    room: &[u8],
    reply: &mut [u8],
) -> Served
    requires { Ready c board.old room.now reply.old }
    ensures { Does (answered c (got_of room.now (Outcome.Message len sum)) board.old) board.new reply.old reply.new result }
{
    match frames::judge(len, sum, room, connections::is_strict(board, c)) {
        Ok(()) => serving::serve(board, c, &room[..len as usize], reply),
        // by its number: no refusal of a frame has a place, which its type does not say
        Err(refusal) => answers::no_reply(refusal.number()),
    }
}

// A piece is fed to the room of the connection at `at`.
fn feed_part(rooms: &mut [u8], at: usize, half: Half, piece: &[u8]) -> Fed
    requires { (at < 4) × (4096 ≤ length rooms.old) }
    ensures { (result ≡ (run_of 0 half (room_at at rooms.old) piece.now).fed) × (rooms.new ≡ put_room at (run_of 0 half (room_at at rooms.old) piece.now).room rooms.old) }
{
    let from = at * 1024;
    let to = from + 1024;
    framing::feed(half, &mut rooms[from..to], piece)
}

// A message that has ended is judged and served, from that room.
fn judge_part(
    board: &mut Board,
    c: u8,
    len: u16,
    sum: u16,
    rooms: &[u8],
    reply: &mut [u8],
) -> Served
    requires { (is_open c board.old ≡ true) × (4096 ≤ length rooms.now) × (4096 ≤ length reply.old) }
    ensures { Does (answered c (got_of (room_at c rooms.now) (Outcome.Message len sum)) board.old) board.new reply.old reply.new result }
{
    let from = (c as usize) * 1024;
    let to = from + 1024;
    judge_message(board, c, len, sum, &rooms[from..to], reply)
}

// The bytes of an open connection, with a reply buffer that is long enough.
fn take_bytes(
    board: &mut Board,
    halves: &mut [[u64; 3]; 4],
    rooms: &mut [u8],
    c: u8,
    piece: &[u8],
    reply: &mut [u8],
) -> Done
    requires { (is_open c board.old ≡ true) × (4096 ≤ length rooms.old) × (4096 ≤ length reply.old) }
    ensures answers { Answers (fed_call c (fed c piece.now halves.old rooms.old) board.old) board.new reply.old reply.new result }
    ensures halves_after { halves.new ≡ put_half c (half_after (fed c piece.now halves.old rooms.old).fed.outcome) halves.old }
    ensures rooms_after { rooms.new ≡ put_room c (fed c piece.now halves.old rooms.old).room rooms.old }
    ensures byte { result.answer < 256 }
{
    let at = c as usize;
    let fed = feed_part(rooms, at, halves::half_at(halves, at), piece);
    halves::keep_half(halves, at, fed.outcome);
    match fed.outcome {
        Outcome::Waiting(_) => finish(answers::no_reply(numbers::WAITING), fed.taken),
        Outcome::KeepAlive => finish(answers::no_reply(numbers::KEEP_ALIVE), fed.taken),
        Outcome::Stray => finish(answers::no_reply(numbers::STRAY), fed.taken),
        Outcome::Message(len, sum) => {
            finish(judge_part(board, c, len, sum, rooms, reply), fed.taken)
        }
    }
}

// Bytes of connection c, up to the end of a message, which is served, or of the piece.
#[tactic(auto, unfolding(crate::specs::Pieces::halves_after, crate::specs::Pieces::rooms_after))]
pub fn give_bytes(
    board: &mut Board,
    halves: &mut [[u64; 3]; 4],
    rooms: &mut [u8; 4096],
    records: usize,
    c: u8,
    piece: &[u8],
    reply: &mut [u8],
) -> Done
    ensures answers { Answers (bytes_call c piece.now (length reply.old) records board.old halves.old rooms.old) board.new reply.old reply.new result }
    ensures halves_after { halves.new ≡ halves_after c piece.now (length reply.old) records board.old halves.old rooms.old }
    ensures rooms_after { rooms.new ≡ rooms_after c piece.now (length reply.old) records board.old halves.old rooms.old }
    ensures byte { result.answer < 256 }
{
    if !connections::is_open(board, c) {
        return finish(answers::refused(Refusal::NoConnection), 0);
    }
    if reply.len() < 4096 {
        return finish(answers::refused(Refusal::ShortBuffer), 0);
    }
    if records < 31 {
        return finish(answers::refused(Refusal::ShortBuffer), 0);
    }
    take_bytes(board, halves, rooms, c, piece, reply)
}
