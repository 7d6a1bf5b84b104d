// The changes of the lent board: what a level, a command and an entry of a WriteDevices message do to it. It alone tells a change from
// none. It takes every board and every number. Each answers with what really changed, a level or a relay's state, on which deck, or with why
// nothing was done: something is out of range.

#![tactic(auto)]

ghost use Rattle.std.specs.Prelude.{◌≡◌};
ghost use Rattle.edits.specs.Edits.{input_edited, relay_edited};
ghost use Rattle.changes.specs.Answers.{Makes, on_input, on_relay};
ghost use Rattle.changes.specs.Levels.{has_level, level_of};
ghost use Rattle.changes.specs.Commands.{close_relay, open_relay, toggle_relay, clear_count, clear_input_usage, clear_relay_usage, on_present};
ghost use Rattle.changes.specs.Entries.{write_input, write_relay};

use edits::{InputEdit, RelayEdit};
use modules::Moved;
use refusals::Refusal;
use rows::Board;

// Every edit of one input is made here: the channel is judged, and a change told from none.
#[tactic(auto, unfolding(crate::specs::Answers::on_input))]
fn edit_input(board: &mut Board, channel: u16, edit: InputEdit) -> Result<Moved, Refusal>
    ensures { Makes (on_input (input_edited edit) channel board.old) board.new result }
{
    let k = usize::from(channel);
    if !rows::is_channel(k) {
        return Err(Refusal::OutOfRange);
    }
    let was = board.input_at(k);
    let input = edit.apply(was);
    board.put_input(k, input);
    Ok(Moved {
        inner: was.level != input.level,
        outer: false,
    })
}

// Every edit of one relay, in the same way; whether it may be edited is told.
#[tactic(auto, unfolding(crate::specs::Answers::on_relay))]
fn edit_relay(
    board: &mut Board,
    there: bool,
    channel: u16,
    edit: RelayEdit,
) -> Result<Moved, Refusal>
    ensures { Makes (on_relay there (relay_edited edit) channel board.old) board.new result }
{
    if !there {
        return Err(Refusal::OutOfRange);
    }
    let k = usize::from(channel);
    let was = board.relay_at(k);
    let relay = edit.apply(was);
    board.put_relay(k, relay);
    Ok(modules::moved_at(k, was.closed != relay.closed))
}

// Whether an input has a level already: a number that is no input's has none.
fn has_level(board: &Board, input: u8, on: bool) -> bool
    ensures { result ≡ has_level input on board.now }
{
    let k = usize::from(input);
    rows::is_channel(k) && board.input_at(k).level == on
}

// An input is told its level, 0 off or 1 on. The level that it has is not stored again.
#[tactic(auto, unfolding(crate::specs::Levels::level_of))]
pub fn level(board: &mut Board, input: u8, level: u8) -> Result<Moved, Refusal>
    ensures { Makes (level_of input level board.old) board.new result }
{
    if 1 < level {
        return Err(Refusal::OutOfRange);
    }
    let on = level == 1;
    if has_level(board, input, on) {
        return Ok(Moved {
            inner: false,
            outer: false,
        });
    }
    edit_input(board, u16::from(input), InputEdit::Tell(on))
}

// An edit of any relay that is there, the second deck's too.
#[tactic(auto, unfolding(crate::specs::Commands::on_present))]
fn switch_relay(board: &mut Board, channel: u16, edit: RelayEdit) -> Result<Moved, Refusal>
    ensures { Makes (on_present (relay_edited edit) channel board.old) board.new result }
{
    let there = modules::is_present(board, usize::from(channel));
    edit_relay(board, there, channel, edit)
}

// The actions of a Command message that have a channel, in the order of their numbers: 1, 2, 3, 5, 8 and 9. The first three have any relay that
// is there, the others a channel of the box's own. A function each: each keeps the contract by the definition of its action.
pub fn close_relay(board: &mut Board, channel: u16) -> Result<Moved, Refusal>
    ensures { Makes (close_relay channel board.old) board.new result }
{
    switch_relay(board, channel, RelayEdit::Close)
}

pub fn open_relay(board: &mut Board, channel: u16) -> Result<Moved, Refusal>
    ensures { Makes (open_relay channel board.old) board.new result }
{
    switch_relay(board, channel, RelayEdit::Open)
}

pub fn toggle_relay(board: &mut Board, channel: u16) -> Result<Moved, Refusal>
    ensures { Makes (toggle_relay channel board.old) board.new result }
{
    switch_relay(board, channel, RelayEdit::Toggle)
}

pub fn clear_count(board: &mut Board, channel: u16) -> Result<Moved, Refusal>
    ensures { Makes (clear_count channel board.old) board.new result }
{
    edit_input(board, channel, InputEdit::ClearCount)
}

pub fn clear_input_usage(board: &mut Board, channel: u16) -> Result<Moved, Refusal>
    ensures { Makes (clear_input_usage channel board.old) board.new result }
{
    edit_input(board, channel, InputEdit::ClearUsage)
}

pub fn clear_relay_usage(board: &mut Board, channel: u16) -> Result<Moved, Refusal>
    ensures { Makes (clear_relay_usage channel board.old) board.new result }
{
    let there = rows::is_channel(usize::from(channel));
    edit_relay(board, there, channel, RelayEdit::ClearUsage)
}

// One entry of a WriteDevices message for input k.
#[tactic(auto, unfolding(crate::specs::Entries::write_input))]
pub fn write_input(board: &mut Board, k: u8, flags: u8, count: u32) -> Result<Moved, Refusal>
    ensures { Makes (write_input k flags count board.old) board.new result }
{
    if 7 < flags {
        return Err(Refusal::OutOfRange);
    }
    edit_input(
        board,
        u16::from(k),
        InputEdit::Write(flags, u64::from(count)),
    )
}

// One entry of a WriteDevices message for relay k.
#[tactic(auto, unfolding(crate::specs::Entries::write_relay))]
pub fn write_relay(board: &mut Board, k: u8, flags: u8, state: u8) -> Result<Moved, Refusal>
    ensures { Makes (write_relay k flags state board.old) board.new result }
{
    if edits::relay_fails(flags, state) {
        return Err(Refusal::OutOfRange);
    }
    let there = rows::is_channel(usize::from(k));
    edit_relay(board, there, u16::from(k), RelayEdit::Write(flags, state))
}
