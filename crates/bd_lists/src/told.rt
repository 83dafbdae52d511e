//! What a board asks of a receipt.

ghost use Rattle.std.specs.Prelude.{◌≡◌, ℕ};
ghost use Rattle.st_records.specs.declared.record.Record.{Record};

use bd_ledger::Ticket;
use st_records::Record;

/// A receipt: it tells that the record with a ticket was written.
pub trait Told {
    ghost ticket_of: { Self → ℕ };

    ghost noted_of: { Self → Record };

    /// The ticket of the submission.
    fn ticket(&self) -> Ticket
        ensures { result ≡ ticket_of self.now };

    /// The record that was submitted.
    fn noted(&self) -> &Record
        ensures { result.now ≡ noted_of self.now };
}
