//! Receipts that tell what they were made with.
use bd_ledger::Ticket;
use bd_lists::Told;
use st_records::Record;

pub struct Note {
    pub ticket: Ticket,
    pub noted: Record,
}

impl Drop for Note {
    fn drop(self) {
        let Note { ticket: _, noted } = self;
        drop(noted);
    }
}

impl Told for Note {
    ghost ticket_of = { λ n. n.ticket };

    ghost noted_of = { λ n. n.noted };

    fn ticket(&self) -> Ticket {
        self.ticket
    }

    fn noted(&self) -> &Record {
        &self.noted
    }
}
