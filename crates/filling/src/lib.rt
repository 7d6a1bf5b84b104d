// The second deck's places are filled and emptied: what that does to the lent board, and to a record of the row of pulses. The row itself is
// never seen here: of it its length comes, and a record by value. It takes every board, nonsense words too, every number of records and every
// place.

#![tactic(auto)]

ghost use Rattle.std.specs.Prelude.{◌≡◌};
ghost use Rattle.answers.specs.Calls.{concluded, Gives};
ghost use Rattle.filling.specs.Filling.{module_mask, place_judged, filled_at, last_gone, emptied_at, place_filled, place_emptied, losing, lost};

use answers::Served;
use refusals::Refusal;
use ring::Pulse;
use rows::Board;

// The relays of a place's module as a mask, the lowest bit relay 1.
fn module_mask(place: usize) -> u16
    ensures { result ≡ module_mask place }
{
    if place == 1 { 0x0F00 } else { 0xF000 }
}

// A module comes to a place: its relays are open. Where one stands nothing is done.
#[tactic(auto, unfolding(crate::specs::Filling::filled_at))]
fn fill_place(board: &mut Board, place: usize)
    ensures { board.new ≡ filled_at place board.old }
{
    if !modules::is_filled(board, place) {
        blocks::block(board, module_mask(place), 0);
        modules::set_filled(board, place, true);
    }
}

// Where no module is left the External Monitor message is due to nobody.
#[tactic(auto, unfolding(crate::specs::Filling::last_gone))]
fn clear_if_last(board: &mut Board)
    ensures { board.new ≡ last_gone board.old }
{
    if !modules::has_module(board) {
        marks::clear_external(board);
    }
}

// A module leaves a place: its relays open, and the marks follow. Where none stands nothing is done.
#[tactic(auto, unfolding(crate::specs::Filling::emptied_at))]
fn empty_place(board: &mut Board, place: usize)
    ensures { board.new ≡ emptied_at place board.old }
{
    if modules::is_filled(board, place) {
        let moved = blocks::block(board, module_mask(place), 0);
        modules::set_filled(board, place, false);
        marks::mark(board, moved);
        clear_if_last(board);
    }
}

// A call for a place, the row of pulses having so many records: first the row is judged, then the place.
fn judge_place(records: usize, place: usize) -> Result<(), Refusal>
    ensures { result ≡ place_judged records place }
{
    if records < 31 {
        return Err(Refusal::ShortBuffer);
    }
    if !modules::is_place(place) {
        return Err(Refusal::OutOfRange);
    }
    Ok(())
}

// The two calls for a place, each by the definition of its event: with the step as a closure neither is plainer.
#[tactic(auto, unfolding(crate::specs::Filling::place_filled))]
fn try_fill(board: &mut Board, records: usize, place: usize) -> Result<(), Refusal>
    ensures { place_filled records place board.old ≡ concluded result board.new }
{
    judge_place(records, place)?;
    fill_place(board, place);
    Ok(())
}

#[tactic(auto, unfolding(crate::specs::Filling::place_emptied))]
fn try_empty(board: &mut Board, records: usize, place: usize) -> Result<(), Refusal>
    ensures { place_emptied records place board.old ≡ concluded result board.new }
{
    judge_place(records, place)?;
    empty_place(board, place);
    Ok(())
}

// A place is filled, with a row of pulses of so many records.
pub fn fill(board: &mut Board, records: usize, place: u8) -> Served
    ensures { Gives (place_filled records place board.old) board.new result }
{
    answers::concluded(try_fill(board, records, usize::from(place)))
}

// A place is emptied, likewise. The records that `losing` counts lose the module's relays as `lose` says.
pub fn empty(board: &mut Board, records: usize, place: u8) -> Served
    ensures { Gives (place_emptied records place board.old) board.new result }
{
    answers::concluded(try_empty(board, records, usize::from(place)))
}

// How many pulses lose relays when a place is emptied: all that stand, where a module does; else none.
#[tactic(auto, unfolding(crate::specs::Filling::losing))]
pub fn losing_of(board: &Board, records: usize, place: u8) -> u64
    ensures { result ≡ losing records place board.now }
{
    if records < 31 || !modules::is_filled(board, usize::from(place)) {
        return 0;
    }
    board.queue().standing.min(31)
}

// A pulse without the relays of a place's module: they leave its mask.
#[tactic(auto, unfolding(crate::specs::Filling::without))]
pub fn lose(pulse: Pulse, place: u8) -> Pulse
    ensures { result ≡ lost place pulse }
{
    Pulse {
        mask: if place == 1 {
            pulse.mask % 0x0100 + pulse.mask / 0x1000 * 0x1000
        } else {
            pulse.mask % 0x1000
        },
        ..pulse
    }
}
