// Relays that take their states by a mask, on both decks: action 10, a pulse's beginning and end, a module that comes or is pulled. It takes
// every board and every mask.

#![tactic(auto)]

ghost use Rattle.std.specs.Prelude.{◌≡◌, cond, ◌+◌, ◌≤◌, Ok};
ghost use Rattle.laws.specs.Each.{any_below};
ghost use Rattle.records.specs.Held.{switched};
ghost use Rattle.rows.specs.Places.{relay_at, put_relay, on_rows, first_relay};
ghost use Rattle.changes.specs.Answers.{Makes, differ};
ghost use Rattle.blocks.specs.Blocks.{masked, moves, blocked_row, block_of};

use modules::Moved;
use rows::Board;

// Relay k takes a state if it is chosen; whether that changed it.
#[tactic(auto, using(changes::proofs::Making::differ_same), unfolding(crate::specs::Blocks::masked))]
fn mask_relay(board: &mut Board, k: usize, chosen: bool, state: bool) -> bool
    ensures board_after { board.new
        ≡ cond chosen (put_relay k (switched state (relay_at k board.old)) board.old) board.old }
    ensures value { result ≡ differ (relay_at k board.old).closed (masked chosen state (relay_at k board.old)).closed }
{
    if !chosen {
        return false;
    }
    let was = board.relay_at(k);
    let mut r = was;
    r.closed = state;
    board.put_relay(k, r);
    was.closed != state
}

// The relays of one deck, the eight behind relay `first`, take their state where they are masked, by the lowest eight bits; whether one of them
// changed.
fn block_deck(board: &mut Board, first: usize, mask: u16, state: u16) -> bool
    requires { first ≤ 8 }
    ensures board_after { board.new ≡ on_rows (first + first_relay) 8 (blocked_row mask state) board.old }
    ensures value { result ≡ any_below 8 (λ k. moves mask state k (relay_at (first + k + 1) board.old)) }
{
    let mut changed = false;
    for k in 0..8 {
        changed |= mask_relay(
            board,
            first + k + 1,
            edits::bit(mask, k),
            edits::bit(state, k),
        );
    }
    changed
}

// The second deck, by the bits above those eight. A mask of a byte, which is nearly every one, does not reach it.
fn block_outer(board: &mut Board, mask: u16, state: u16) -> bool
    ensures board_after { board.new ≡ on_rows (8 + first_relay) 8 (λ k. blocked_row mask state (8 + k)) board.old }
    ensures value { result ≡ any_below 8 (λ k. moves mask state (8 + k) (relay_at (8 + k + 1) board.old)) }
{
    if mask < 256 {
        return false;
    }
    block_deck(board, 8, mask / 256, state / 256)
}

// Action 10, and a pulse: the masked relays take their state, the lowest bit relay 1. It is never refused.
pub fn block(board: &mut Board, mask: u16, state: u16) -> Moved
    ensures { Makes (block_of mask state board.old) board.new (Ok result) }
{
    let inner = block_deck(board, 0, mask, state);
    let outer = block_outer(board, mask, state);
    Moved { inner, outer }
}
