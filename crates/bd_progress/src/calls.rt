//! The calls of a board that move nodes, each with its move: so the moves of which the laws speak are those that a run makes.

ghost use Rattle.std.specs.Prelude.{◌≡◌, ℕ, ◌+◌, ◌≤◌, ◌∷◌, ◌++◌, [], List, true, false, IsTrue, MatchOption, IfOk, IfErr, Some, length, slice_get, vec_len, vec_capacity};
ghost use Rattle.st_records.specs.declared.record.Record.{Record};
ghost use Rattle.st_records.specs.Limits.{IsGoodIn};
ghost use Rattle.bd_places.specs.Placed.{holds_any};
ghost use Rattle.bd_lists.specs.Admission.{run_of};
ghost use Rattle.bd_progress.specs.Moves.{at, IsMove, IsMade, IsRefused};
ghost use Rattle.bd_progress.specs.Moves as moves;

use bd_ledger::Ticket;
use bd_links::Node;
use bd_lists::{Advanced, BoardIn, Spent, Told};
use bd_places::End;
use st_records::{Form, Record};

/// A claim is a move, and refused only where no node is ready.
pub fn claim<T: Told>(board: &mut BoardIn<T>) -> Option<Node>
    ensures { MatchOption result (IsRefused board.old moves.claim board.new) (λ n. IsMade board.old moves.claim board.new) }
{
    board.claim()
}

/// A submission that is taken is a move, which takes the record; one of the board's form is refused only where it is none.
pub fn submit<T: Told>(
    board: &mut BoardIn<T>,
    form: Form,
    node: Node,
    note: Record,
    run: Option<Spent<T>>,
) -> Result<(Ticket, Option<T>), (Record, Option<Spent<T>>)>
    requires { IsGoodIn form note }
    ensures made { IfOk result (λ r. (taken : List Record)
        → IsMove (at board.old taken) (moves.submit node note (run_of T.ticket_of run)) (at board.new (taken ++ note ∷ []))) }
    ensures refused { IfErr result (λ r. board.old.form ≡ form → IsRefused board.old (moves.submit node note (run_of T.ticket_of run)) board.new) }
{
    board.submit(form, node, note, run)
}

/// To drain is a move, where something waits to be drained.
pub fn drain<T: Told>(board: &mut BoardIn<T>, records: &mut Vec<(Ticket, Record)>)
    requires { vec_len records.old + length board.old.standing.lists.unflushed ≤ vec_capacity records.old }
    ensures { holds_any board.old.standing.lists.unflushed ≡ true → IsMade board.old moves.drain board.new }
{
    board.drain(records);
}

/// To go on with a receipt is a move, where it tells of the record that was taken with its ticket; it is refused only where it is none.
pub fn advance<T: Told>(board: &mut BoardIn<T>, node: Node, told: T) -> Result<Advanced<T>, T>
    ensures made { IfOk result (λ a. (taken : List Record) → slice_get taken (T.ticket_of told) ≡ Some (T.noted_of told)
        → IsMove (at board.old taken) (moves.advance node (T.ticket_of told) (T.noted_of told)) (at board.new taken)) }
    ensures refused { IfErr result (λ t. IsRefused board.old (moves.advance node (T.ticket_of told) (T.noted_of told)) board.new) }
{
    board.advance(node, told)
}

/// To settle a node is a move, and refused only where it is none.
pub fn settle<T: Told>(board: &mut BoardIn<T>, node: Node, end: End) -> bool
    ensures made { IsTrue result → IsMade board.old (moves.settle node end) board.new }
    ensures refused { result ≡ false → IsRefused board.old (moves.settle node end) board.new }
{
    board.settle(node, end)
}

/// To abandon one is a move, and refused only where it is none.
pub fn abandon<T: Told>(board: &mut BoardIn<T>, node: Node) -> bool
    ensures made { IsTrue result → IsMade board.old (moves.abandon node) board.new }
    ensures refused { result ≡ false → IsRefused board.old (moves.abandon node) board.new }
{
    board.abandon(node)
}
