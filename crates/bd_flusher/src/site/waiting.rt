//! What a site asks of a board, whatever its type.

ghost use Rattle.std.specs.Prelude.{◌≡◌, ◌+◌, ◌≤◌, ◌++◌, length, vec_len, vec_capacity};
ghost use Rattle.st_records.specs.declared.version.Form.{Form};
ghost use Rattle.st_records.specs.declared.version.Form.TheVariants.{Plain};
ghost use Rattle.bd_ledger.specs.Sheet.{Sheet, drained, AreOf, AreWritableIn};

use crate::site::Receipt;
use bd_ledger::Ticket;
use bd_lists::{Board, BoardIn};
use st_records::Record;

/// A board of some type: a `Board`, of records as in version 2, or a `BoardIn`, of the form that it was made with.
pub(crate) trait Waiting {
    ghost form_of: { Self → Form };

    ghost sheet_of: { Self → Sheet };

    /// How many records wait to be written.
    fn count(&self) -> usize
        ensures nodes { result ≡ length (sheet_of self.now).standing.lists.unflushed }
        ensures notes { result ≡ length (sheet_of self.now).notes };

    /// As `Board::drain`.
    fn hand_over(&mut self, records: &mut Vec<(Ticket, Record)>)
        requires { vec_len records.old + length (sheet_of self.old).standing.lists.unflushed ≤ vec_capacity records.old }
        ensures drained { sheet_of self.new ≡ drained (sheet_of self.old) }
        ensures records { records.new.items ≡ records.old.items ++ (sheet_of self.old).notes }
        ensures own { AreOf (sheet_of self.old).names (sheet_of self.old).sent (sheet_of self.old).standing.lists.unflushed (sheet_of self.old).notes }
        ensures writable { AreWritableIn (form_of self.old) (sheet_of self.old).notes };
}

impl Waiting for Board<Receipt> {
    ghost form_of = { λ _. Plain };

    ghost sheet_of = { λ b. b };

    fn count(&self) -> usize {
        self.unflushed()
    }

    fn hand_over(&mut self, records: &mut Vec<(Ticket, Record)>) {
        self.drain(records);
    }
}

impl Waiting for BoardIn<Receipt> {
    ghost form_of = { λ b. b.form };

    ghost sheet_of = { λ b. b };

    fn count(&self) -> usize {
        self.unflushed()
    }

    fn hand_over(&mut self, records: &mut Vec<(Ticket, Record)>) {
        self.drain(records);
    }
}
