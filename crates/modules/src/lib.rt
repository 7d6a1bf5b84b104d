// The second deck: which of its two places hold a module, which relays are there, and on which deck a change fell. The places' rows of the
// board are read and written here alone. It takes every board, nonsense words too, and every number: one that is no place's reads as empty,
// and a store to it does nothing.

#![tactic(auto)]

ghost use Rattle.std.specs.Prelude.{◌≡◌, length};
ghost use Rattle.modules.specs.Modules.{is_place, filled, place_set, present, has_module, outputs, moved_at};

use rows::{Board, FIRST_PLACE};

// The word of a place's row that says what stands there: 0 for nothing, else a module of relays.
const FILLED: usize = 0;

// What a change really changed: inner, a level or one of relays 1 to 8; outer, one of relays 9 to 16.
#[derive(Clone, Copy, Debug, PartialEq, Eq)]
pub struct Moved {
    pub inner: bool,
    pub outer: bool,
}

// The one place where a place is judged.
pub fn is_place(place: usize) -> bool
    ensures { result ≡ is_place place }
{
    1 <= place && place <= 2
}

// Whether a module stands at a place.
#[tactic(auto, unfolding(crate::specs::Modules::filled))]
pub fn is_filled(board: &Board, place: usize) -> bool
    ensures { result ≡ filled place board.now }
{
    is_place(place) && board.rows[place - 1 + FIRST_PLACE][FILLED] != 0
}

// A place is filled, or emptied; no other word changes.
#[tactic(auto, unfolding(crate::specs::Modules::place_set))]
pub fn set_filled(board: &mut Board, place: usize, holds: bool)
    ensures { board.new ≡ place_set place holds board.old }
{
    if is_place(place) {
        board.rows[place - 1 + FIRST_PLACE][FILLED] = u64::from(holds);
    }
}

// Whether relay k is there: 1 to 8 always, one of 9 to 16 with its module.
#[tactic(auto, unfolding(crate::specs::Modules::present))]
pub fn is_present(board: &Board, k: usize) -> bool
    ensures { result ≡ present k board.now }
{
    match k {
        1..=8 => true,
        9..=12 => is_filled(board, 1),
        13..=16 => is_filled(board, 2),
        _ => false,
    }
}

// Whether a module stands at one of the places.
pub fn has_module(board: &Board) -> bool
    ensures { result ≡ has_module board.now }
{
    is_filled(board, 1) || is_filled(board, 2)
}

// How many relays of the second deck are there: four for each module.
pub fn output_count(board: &Board) -> u8
    ensures { result ≡ length (outputs board.now) }
{
    4 * u8::from(is_filled(board, 1)) + 4 * u8::from(is_filled(board, 2))
}

// The deck on which relay k moved, if it did.
#[tactic(auto, unfolding(crate::specs::Modules::moved_at))]
pub fn moved_at(k: usize, moved: bool) -> Moved
    ensures { result ≡ moved_at k moved }
{
    let own = rows::is_channel(k);
    Moved {
        inner: own && moved,
        outer: !own && moved,
    }
}
