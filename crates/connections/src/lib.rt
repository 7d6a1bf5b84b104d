// The connections: which are open, which of them are strict, and opening and closing one. It knows nothing of half-read messages. It takes
// every number, every rank and every board, nonsense included.

#![tactic(auto)]

ghost use Rattle.std.specs.Prelude.{◌≡◌};
ghost use Rattle.answers.specs.Calls.{concluded, Gives};
ghost use Rattle.connections.specs.Lines.{opened_line, is_open, is_strict, connected, closed};

use answers::Served;
use records::Line;
use refusals::Refusal;
use rows::Board;

// A connection that is closed: everything of it is 0.
const SHUT: Line = Line {
    is_open: false,
    rank: 0,
    monitor: false,
    due: false,
    strict: 0,
    external: false,
};

// A connection that was opened at a rank, with a module present or not. What the opening said of its strictness is kept as it is.
#[tactic(auto, unfolding(crate::specs::Lines::opened_line))]
fn opened(rank: u64, strict: u64, present: bool) -> Line
    ensures { result ≡ opened_line rank strict present }
{
    let due = marks::has_rank(rank);
    Line {
        is_open: true,
        rank,
        monitor: true,
        due,
        strict,
        external: due && present,
    }
}

// Whether c is a connection that is open.
pub fn is_open(board: &Board, c: u8) -> bool
    ensures { result ≡ is_open c board.now }
{
    board.line_at(usize::from(c)).is_open
}

// Whether c is a connection that was opened as strict.
pub fn is_strict(board: &Board, c: u8) -> bool
    ensures { result ≡ is_strict c board.now }
{
    board.line_at(usize::from(c)).strict != 0
}

// An opening: first the number is judged, then whether it is open, then the rank.
#[tactic(auto, unfolding(crate::specs::Lines::connected))]
fn open(board: &mut Board, c: u8, rank: u8, strict: u8) -> Result<(), Refusal>
    ensures { connected c rank strict board.old ≡ concluded result board.new }
{
    if 4 <= c {
        return Err(Refusal::NoConnection);
    }
    if is_open(board, c) {
        return Err(Refusal::AlreadyOpen);
    }
    if 2 < rank {
        return Err(Refusal::BadRank);
    }
    let present = modules::has_module(board);
    board.put_line(
        usize::from(c),
        opened(u64::from(rank), u64::from(strict), present),
    );
    Ok(())
}

// A connection is opened at a rank; strict is 0 for one that is not strict, and anything else for one that is.
pub fn connect(board: &mut Board, c: u8, rank: u8, strict: u8) -> Served
    ensures { Gives (connected c rank strict board.old) board.new result }
{
    answers::concluded(open(board, c, rank, strict))
}

// A connection is closed.
#[tactic(auto, unfolding(crate::specs::Lines::closed))]
pub fn close(board: &mut Board, c: u8) -> Served
    ensures { Gives (closed c board.old) board.new result }
{
    if !is_open(board, c) {
        return answers::refused(Refusal::NoConnection);
    }
    board.put_line(usize::from(c), SHUT);
    answers::concluded(Ok(()))
}
