// The due marks of the connections, one for the Monitor message and one for the External Monitor message, which are set here, in one place.
// It knows no messages, no events and no half-read messages.
// Takes every board, nonsense words too.

#![tactic(auto)]

ghost use Rattle.std.specs.Prelude.{◌≡◌, cond};
ghost use Rattle.rows.specs.Places.{line_at, due_set};
ghost use Rattle.marks.specs.Marks.{has_rank, watches, marked, external_cleared};

use modules::Moved;
use records::{EXTERNAL, Line};
use rows::{Board, FIRST_LINE, QUEUE};

// Whether a rank is one that Monitor is due to: user or administrator.
pub fn has_rank(rank: u64) -> bool
    ensures { result ≡ has_rank rank }
{
    1 <= rank && rank <= 2
}

fn watching(l: Line) -> bool
    ensures { result ≡ watches l }
{
    l.is_open && has_rank(l.rank) && l.monitor
}

fn mark_line(board: &mut Board, c: usize, due: bool, external: bool)
    ensures { board.new ≡ cond (watches (line_at c board.old)) (due_set c due external board.old) board.old }
{
    if watching(board.line_at(c)) {
        board.set_due(c, due, external);
    }
}

// The marks that follow from a change, on whichever deck: the first deck's marks the Monitor message, and while a module is present either
// deck's marks the External Monitor message.
#[tactic(auto, unfolding(crate::specs::Marks::marked))]
pub fn mark(board: &mut Board, moved: Moved)
    ensures { board.new ≡ marked moved board.old }
{
    if moved.inner || moved.outer {
        let external = modules::has_module(board);
        for c in 0..4 {
            mark_line(board, c, moved.inner, external);
        }
    }
}

// Every mark of the External Monitor message is cleared.
#[tactic(auto, unfolding(crate::specs::Marks::external_cleared))]
pub fn clear_external(board: &mut Board)
    ensures { board.new ≡ external_cleared board.old }
{
    for row in board.rows[FIRST_LINE..QUEUE].iter_mut() {
        row[EXTERNAL] = 0;
    }
}
