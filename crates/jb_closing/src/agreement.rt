//! Whether receipts are those of the records that were told, each ticket just once.
ghost use Rattle.std.specs.Prelude.{◌≡◌, ◌⊎◌, ◌≤◌, List, [], ◌∷◌, ◌++◌, length, position, replicate, IfOk, IfSome, MatchOption};
ghost use Rattle.st_records.specs.declared.record.Record.{Record};
ghost use Rattle.bd_flusher.specs.declared.site.receipt.Receipt.{Receipt};
ghost use Rattle.jb_closing.specs.declared.agreement.Mark.TheVariants.{Missing};
ghost use Rattle.jb_closing.specs.Agreement.{AreThoseOf, IsFirstDifference, IsMark};
ghost use Rattle.jb_closing.specs.Marking.{AreMarks, IsLeastBeyond, is_unmarked};

use bd_flusher::{Receipt, is_same};
use bd_lists::Told;
use st_records::Record;
use std::alloc::{AllocError, Global};

/// What the receipts so far say of one told record.
#[derive(Clone, Copy, Debug, PartialEq, Eq)]
pub(crate) enum Mark {
    /// No receipt has its ticket.
    Missing,
    /// One has, and notes it.
    Right,
    /// Several have, or one that notes another record.
    Wrong,
}

/// The mark of a told record by the first receipt of its ticket.
fn first_mark(told: &Record, noted: &Record) -> Mark
    ensures { IsMark result told.now (noted.now ∷ []) }
{
    if is_same(told, noted) {
        Mark::Right
    } else {
        Mark::Wrong
    }
}

/// The mark of a told record, once one more receipt of its ticket notes this.
fn marked(mark: Mark, told: &Record, noted: &Record) -> Mark
    ensures { (before : List Record) → IsMark mark told.now before → IsMark result told.now (before ++ noted.now ∷ []) }
{
    match mark {
        Mark::Missing => first_mark(told, noted),
        _ => Mark::Wrong,
    }
}

/// The marks of the told records by some receipts, and the least ticket of a receipt that is beyond them.
struct Marks {
    marks: Vec<Mark>,
    beyond: Option<usize>,
}

impl Drop for Marks {
    fn drop(self) {
        let Marks {
            marks: _,
            beyond: _,
        } = self;
    }
}

fn least(beyond: Option<usize>, ticket: usize) -> usize
    ensures least { result ≤ ticket }
    ensures kept { IfSome beyond (λ b. result ≤ b) }
    ensures one { MatchOption beyond (result ≡ ticket) (λ b. (result ≡ b) ⊎ (result ≡ ticket)) }
{
    match beyond {
        Some(other) if other < ticket => other,
        _ => ticket,
    }
}

fn no_marks(alloc: Global, told: usize) -> Result<Vec<Mark>, AllocError>
    ensures { IfOk result (λ v. v.items ≡ replicate told Missing) }
{
    Ok(vec![in alloc; Mark::Missing; told]?)
}

impl Marks {
    /// Takes in one receipt more.
    fn add(&mut self, told: &[Record], receipt: &Receipt)
        requires { length self.old.marks.items ≡ length told.now }
        ensures marks { (receipts : List Receipt) → AreMarks told.now receipts self.old.marks.items
            → AreMarks told.now (receipts ++ receipt.now ∷ []) self.new.marks.items }
        ensures beyond { (receipts : List Receipt) → IsLeastBeyond (length told.now) receipts self.old.beyond
            → IsLeastBeyond (length told.now) (receipts ++ receipt.now ∷ []) self.new.beyond }
    {
        let ticket = receipt.ticket().number();
        if ticket < told.len() {
            self.marks[ticket] = marked(self.marks[ticket], &told[ticket], receipt.noted());
        } else {
            self.beyond = Some(least(self.beyond, ticket));
        }
    }
}

/// Marks the told records by the receipts, each receipt looked at once.
fn marks_by(alloc: Global, told: &[Record], receipts: &[Receipt]) -> Result<Marks, AllocError>
    ensures marks { IfOk result (λ m. AreMarks told.now receipts.now m.marks.items) }
    ensures beyond { IfOk result (λ m. IsLeastBeyond (length told.now) receipts.now m.beyond) }
{
    let first = no_marks(alloc, told.len())?;
    let mut marks = Marks {
        marks: first,
        beyond: None,
    };
    for receipt in receipts {
        marks.add(told, receipt);
    }
    Ok(marks)
}

/// Whether a told record is without its one receipt.
fn is_unmarked(mark: Mark) -> bool
    ensures { result ≡ is_unmarked mark }
{
    !matches!(mark, Mark::Right)
}

/// The first place whose mark isn't right.
fn first_unmarked(marks: &[Mark]) -> Option<usize>
    ensures { result ≡ position is_unmarked marks.now }
{
    marks.iter().position(|mark| is_unmarked(*mark))
}

/// The first ticket at which the told records and the receipts differ; None where the receipts are those of the records, each
/// ticket just once. Its time is linear in both.
pub(crate) fn first_difference(
    alloc: Global,
    told: &[Record],
    receipts: &[Receipt],
) -> Result<Option<usize>, AllocError>
    ensures { IfOk result (λ found. MatchOption found (AreThoseOf told.now receipts.now)
        (λ ticket. IsFirstDifference told.now receipts.now ticket)) }
{
    let marks = marks_by(alloc, told, receipts)?;
    match first_unmarked(&marks.marks) {
        Some(ticket) => Ok(Some(ticket)),
        None => Ok(marks.beyond),
    }
}
