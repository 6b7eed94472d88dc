//! What a command of the program hands back.
ghost use Rattle.std.specs.Prelude.{◌≡◌, true, [], IfSome, IsSome};
ghost use Rattle.board_meaning.specs.Ready.{is_closed};
ghost use Rattle.board_front.specs.Staying.{Stays};

use board_front::Mmt;
use run_status::Status;
use verdict_board::Board;

/// How a command of the program ended, and the board that it ran. Where memory was wanting for a board there is none.
#[derive(Drop)]
pub struct Ended {
    pub status: Status,
    pub board: Option<Board<Mmt>>,
}

/// What is handed back where the front did not begin: the board, closed.
pub(crate) fn unbegun(board: Board<Mmt>) -> Ended
    requires { board ≡ [] }
    ensures status { result.status ≡ Status.Memory }
    ensures board { IfSome result.board (λ board. Stays [] board × (is_closed board ≡ true)) }
    ensures some { IsSome result.board }
{
    let mut board = board;
    board.close(0);
    Ended {
        status: Status::Memory,
        board: Some(board),
    }
}
