// Pulsed relays: a pulse's beginning and end, a request, and passing time.
// The pulses' records stand in a lent row, which this crate never sees: what it needs of it comes by value, and a request that is accepted is
// kept in the board until it is written there. Takes every board, nonsense words too; a pulse with no ms left ends in the next ms.

#![tactic(auto)]

ghost use Rattle.std.specs.Prelude.{◌≡◌, cond, ◌||◌, ◌-◌, Result, Ok, Err};
ghost use Rattle.refusals.specs.declared.Refusal.TheVariants.{ShortBuffer, QueueFull};
ghost use Rattle.rows.specs.Places.{queue_of, left_set};
ghost use Rattle.ring.specs.Ring.{is_full, runs};
ghost use Rattle.pulses.specs.Pulses.{short_row, states_of, switched, begun, ended, followed, lasts, ends_within, waited, accepted};
ghost use Rattle.pulses.specs.Passing.{onward, start_of, turn_of, Goes};

use records::Queue;
use refusals::Refusal;
use ring::{PLACES, Pulse};
use rows::Board;

// The running pulse ends in a call of time: the ms that are left of the call, its place in the row, and that of the next.
#[derive(Clone, Copy, Debug, PartialEq, Eq)]
pub struct Ending {
    pub rest: u32,
    pub running: usize,
    pub next: usize,
}

// ---- requests

// A pulse is asked for, and refused where 31 stand. Where no other runs it begins here.
#[tactic(auto, unfolding(crate::specs::Pulses::accepted))]
pub fn push(board: &mut Board, p: Pulse) -> Result<(), Refusal>
    ensures board_after { board.new ≡ cond (is_full (queue_of board.old)) board.old (accepted p board.old) }
    ensures value { result ≡ cond (is_full (queue_of board.old)) (Err QueueFull) (Ok tt) }
{
    let q = board.queue();
    if q.standing >= PLACES {
        return Err(Refusal::QueueFull);
    }
    board.put_queue(ring::join(q, p));
    if q.standing == 0 {
        begin(board, p);
    }
    Ok(())
}

// ---- a beginning and an end

// The relays' states, a bit for each, the lowest relay 1.
fn states_of(board: &Board) -> u64
    ensures { result ≡ states_of board.now }
{
    let mut states = 0;
    for k in 0..16 {
        states += u64::from(board.relay_at(k + 1).closed) << k;
    }
    states
}

// The masked relays take these states: a change of its own.
#[tactic(auto, unfolding(crate::specs::Pulses::switched))]
fn switch(board: &mut Board, mask: u16, states: u16)
    ensures { board.new ≡ switched mask states board.old }
{
    let moved = blocks::block(board, mask, states);
    marks::mark(board, moved);
}

// A pulse begins: its ms are left, the relays' states are remembered, and the masked take the pulse's.
#[tactic(auto, unfolding(crate::specs::Pulses::begun))]
fn begin(board: &mut Board, p: Pulse)
    ensures { board.new ≡ begun p board.old }
{
    let mut q = board.queue();
    q.left = u64::from(p.duration);
    q.remembered = states_of(board);
    board.put_queue(q);
    switch(board, p.mask, p.states);
}

// The running pulse, p, ends: the masked relays return to the states that they had at its beginning.
#[tactic(auto, unfolding(crate::specs::Pulses::ended))]
fn end(board: &mut Board, p: Pulse)
    ensures { board.new ≡ ended p board.old }
{
    let q = board.queue();
    board.put_queue(ring::pop(q));
    switch(board, p.mask, (q.remembered % 0x1_0000) as u16);
}

// The next begins, if one waits.
fn follow(board: &mut Board, next: Pulse)
    ensures { board.new ≡ followed next board.old }
{
    if board.queue().standing > 0 {
        begin(board, next);
    }
}

// ---- passing time

// The ms up to the running pulse's end.
fn lasts(q: Queue) -> u64
    ensures { result ≡ lasts q }
{
    q.left.max(1)
}

// A pulse runs, and ends within d ms.
fn ends_within(q: Queue, d: u32) -> bool
    ensures { result ≡ ends_within d q }
{
    q.standing > 0 && lasts(q) <= u64::from(d)
}

// Of the running pulse of the queue q, d ms have passed.
fn run_down(board: &mut Board, q: Queue, d: u32)
    ensures { board.new ≡ cond (runs q) (left_set (q.left - d) board.old) board.old }
{
    if q.standing > 0 {
        board.set_left(q.left.saturating_sub(u64::from(d)));
    }
}

// d ms in which no pulse ends.
#[tactic(auto, unfolding(crate::specs::Pulses::waited))]
fn wait(board: &mut Board, d: u32)
    ensures { board.new ≡ waited d board.old }
{
    let q = board.queue();
    tables::pass_pulsed(board, d);
    run_down(board, q, d);
}

// d ms more: they pass at once where no pulse ends within them.
#[tactic(auto, unfolding(crate::specs::Passing::onward))]
fn go_on(board: &mut Board, d: u32) -> Option<Ending>
    ensures { Goes (onward d board.old) board.new result }
{
    let q = board.queue();
    if ends_within(q, d) {
        return Some(Ending {
            rest: d,
            running: ring::place_in(q, 0),
            next: ring::place_in(q, 1),
        });
    }
    wait(board, d);
    None
}

// A call of time: all d ms pass at once where no pulse ends in them. Where one does, which it says, or with a row that is too short, nothing is
// done.
#[tactic(auto, unfolding(crate::specs::Pulses::waited))]
pub fn at_once(board: &mut Board, records: usize, d: u32) -> Result<bool, Refusal>
    ensures board_after { board.new ≡ cond (short_row records || ends_within d (queue_of board.old)) board.old (waited d board.old) }
    ensures value { result ≡ cond (short_row records) (Err ShortBuffer) (Ok (ends_within d (queue_of board.old))) }
{
    if records < 31 {
        return Err(Refusal::ShortBuffer);
    }
    let q = board.queue();
    if ends_within(q, d) {
        return Ok(true);
    }
    tables::pass(board, d);
    run_down(board, q, d);
    Ok(false)
}

// A call of time begins, whether a pulse ends in it or not: d ms, with a row of so many records.
#[tactic(auto, unfolding(crate::specs::Passing::start_of))]
pub fn start(board: &mut Board, records: usize, d: u32) -> Result<Option<Ending>, Refusal>
    ensures { Goes (start_of records d board.old) board.new result }
{
    if records < 31 {
        return Err(Refusal::ShortBuffer);
    }
    Ok(go_on(board, d))
}

// Time passes up to the running pulse's end, of the ms that are left: it ends, the next begins, and time goes on.
#[tactic(auto, unfolding(crate::specs::Passing::turn_of, crate::specs::Pulses::turned))]
pub fn turn(board: &mut Board, running: Pulse, next: Pulse, rest: u32) -> Option<Ending>
    ensures { Goes (turn_of running next rest board.old) board.new result }
{
    let ms = lasts(board.queue()).min(u64::from(rest)) as u32;
    tables::pass_pulsed(board, ms);
    end(board, running);
    follow(board, next);
    go_on(board, rest - ms)
}
