//! What a worker is given once its record is written.

ghost use Rattle.std.specs.Prelude.{◌≡◌};

use bd_ledger::Ticket;
use bd_lists::Told;
use st_records::Record;

/// That the record of a submission was told, and in which batch. Only a look at a site makes one.
#[derive(Debug)]
pub struct Receipt {
    pub(super) ticket: Ticket,
    pub(super) noted: Record,
    pub(super) batch: usize,
}

impl Drop for Receipt {
    fn drop(self) {
        let Receipt {
            ticket: _,
            noted: _,
            batch: _,
        } = self;
    }
}

impl Receipt {
    /// The number of its batch, of the commits since the store was opened.
    pub fn batch(&self) -> usize
        ensures { result ≡ self.now.batch }
    {
        self.batch
    }
}

impl Told for Receipt {
    ghost ticket_of = { λ r. r.ticket };

    ghost noted_of = { λ r. r.noted };

    fn ticket(&self) -> Ticket {
        self.ticket
    }

    fn noted(&self) -> &Record {
        &self.noted
    }
}
