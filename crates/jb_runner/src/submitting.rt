//! Records on their way to the board.
ghost use Rattle.st_records.specs.Limits.{IsGoodIn};

use crate::desk::Desk;
use crate::shift::Shift;
use bd_flusher::Receipt;
use bd_ledger::Ticket;
use bd_links::Node;
use bd_lists::Spent;
use st_records::Record;
use std::sync::Wait;

// A run that the board handed back. Only its receipt is left.
fn let_go(run: Option<Spent<Receipt>>) -> Option<Receipt> {
    match run {
        Some(spent) => Some(spent.give_up()),
        None => None,
    }
}

// The ticket of a record that the board has taken, and the receipt of the run that it was submitted with.
fn apart(
    submitted: Result<(Ticket, Option<Receipt>), (Record, Option<Spent<Receipt>>)>,
) -> (Option<Ticket>, Option<Receipt>) {
    match submitted {
        Ok((ticket, told)) => (Some(ticket), told),
        Err((note, run)) => {
            drop(note);
            (None, let_go(run))
        }
    }
}

impl Desk<'_> {
    // The board's lock is held for the submission alone.
    fn submit<R: Wait>(
        &self,
        rt: &R,
        node: Node,
        note: Record,
        run: Option<Spent<Receipt>>,
    ) -> Result<(Ticket, Option<Receipt>), (Record, Option<Spent<Receipt>>)>
        requires { IsGoodIn self.now.conduct.now.form note }
    {
        let mut board = self.board.lock(rt);
        board.submit(self.conduct.form, node, note, run)
    }

    /// The ticket of a 'begun'; None where it isn't taken.
    pub(crate) fn hand_in<R: Wait>(&self, rt: &R, node: Node, begun: Record) -> Option<Ticket>
        requires { IsGoodIn self.now.conduct.now.form begun }
    {
        let (ticket, none) = apart(self.submit(rt, node, begun, None));
        drop(none);
        ticket
    }

    /// The ticket of the end; None where it isn't taken. The receipt of the 'begun' is kept.
    pub(crate) fn hand_in_end<R: Wait>(
        &self,
        rt: &R,
        node: Node,
        last: Record,
        spent: Spent<Receipt>,
        shift: &mut Shift,
    ) -> Option<Ticket>
        requires { IsGoodIn self.now.conduct.now.form last }
    {
        let (ticket, begun) = apart(self.submit(rt, node, last, Some(spent)));
        if let Some(begun) = begun {
            shift.keep(begun);
        }
        ticket
    }
}
