// The External Monitor message: the second deck's relays that are there, written as the answers of the crate replies are, its length given as
// theirs. Takes every board.

#![tactic(auto)]

ghost use Rattle.std.specs.Prelude.{◌≡◌};
ghost use Rattle.laws.specs.Put.{rows};
ghost use Rattle.modules.specs.Modules.{second_deck};
ghost use Rattle.writers.specs.Writers.{Sent};
ghost use Rattle.writers.specs.Writing.{Wrote};
ghost use Rattle.external.specs.External.{present_state, external_room, external_reply};

use rows::Board;
use writers::Writer;

// The states of the second deck's relays that are there, rising.
fn write_states(writer: &mut Writer<'_>, board: &Board)
    ensures { Wrote (rows (present_state board.now) second_deck) writer.old writer.new }
{
    for k in 0..8 {
        if modules::is_present(board, 9 + k) {
            writer.flag(board.relay_at(9 + k).closed);
        }
    }
}

// Type 2: the External Monitor message. The room is judged by the longest, before anything is written.
pub fn write_external(out: &mut [u8], board: &Board) -> usize
    ensures { Sent external_room (external_reply board.now) out.old out.new result }
{
    if out.len() < 19 {
        return 0;
    }
    let mut writer = Writer::new(out);
    writer.u8(2);
    writer.u8(0);
    writer.u8(modules::output_count(board));
    write_states(&mut writer, board);
    writer.u64(board.clock());
    writer.at
}
