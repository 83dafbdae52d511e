//! The site of a run once its workers have ended, and what a report says of its store.
ghost use Rattle.std.specs.Prelude.{◌≡◌, ◌≢◌, ℕ, ◌<◌, List, length, false, IfOk, IfErr, MatchOption, IsTrue, ◌↔◌};
ghost use Rattle.st_disk.specs.Moments.{now};
ghost use Rattle.st_state.specs.State.{replay};
ghost use Rattle.mk_names.specs.Names.{name_at};
ghost use Rattle.mk_nodes.specs.Node.{EachHasOneNumber};
ghost use Rattle.bd_places.specs.declared.end.End.TheVariants.{Built};
ghost use Rattle.jb_closing.specs.declared.fault.RunFault.TheVariants.{OutOfMemory};
ghost use Rattle.jb_closing.specs.Agreement.{AreThoseOf};
ghost use Rattle.jb_closing.specs.Last.{IsLastPlace, ArePlaces, EndsDone};
ghost use Rattle.jb_closing.specs.Closing.{AreTrueOf, LacksDoneAt, IsRefusedAt, IsReportFault, AllEndDone};

use crate::agreement::first_difference;
use crate::last::{is_done, last_places};
use crate::{Report, RunFault};
use bd_flusher::{FlushFault, Receipt, SiteIn};
use bd_ledger::Ticket;
use bd_places::End;
use mk_names::Names;
use mk_nodes::Graph;
use st_disk::Disk;
use st_records::{Form, Record};
use std::alloc::Global;

/// What is left of a run: the site, out of its lock. Where no call of its device has failed, its store's map is the fold of the
/// told records from the map with which it was opened.
#[derive(Drop)]
pub struct Closed<D: Disk + Drop> {
    pub site: SiteIn<D>,
}

/// Whether the last record at this place is a 'done'.
fn ends_done(told: &[Record], place: Option<usize>) -> bool
    ensures { (name : List ℕ) → IsLastPlace told.now name place → (IsTrue result ↔ EndsDone told.now name) }
{
    match place {
        Some(place) => match told.get(place) {
            Some(note) => is_done(note),
            None => false,
        },
        None => false,
    }
}

/// Whether the last told record of the node with this number is a 'done'.
fn node_ends_done(told: &[Record], places: &[Option<usize>], node: usize) -> bool
    ensures { (names : List (List ℕ)) → ArePlaces told.now names places.now
        → (IsTrue result ↔ ((node < length names) × EndsDone told.now (name_at names node))) }
{
    match places.get(node) {
        Some(place) => ends_done(told, *place),
        None => false,
    }
}

/// Whether a node ended as built and its last told record is no 'done'.
fn lacks_done(told: &[Record], places: &[Option<usize>], node: usize, end: End) -> bool
    ensures lacks { IsTrue result → (names : List (List ℕ)) → ArePlaces told.now names places.now
        → (end ≡ Built) × ((node < length names) × EndsDone told.now (name_at names node) → ⊥) }
    ensures done { result ≡ false → (names : List (List ℕ)) → ArePlaces told.now names places.now
        → end ≡ Built → (node < length names) × EndsDone told.now (name_at names node) }
{
    match end {
        End::Built => !node_ends_done(told, places, node),
        _ => false,
    }
}

/// The first node that ended as built and whose last told record is no 'done'.
fn first_lacking(told: &[Record], places: &[Option<usize>], ends: &[End]) -> Option<usize>
    ensures { (names : List (List ℕ)) → ArePlaces told.now names places.now
        → MatchOption result (AllEndDone told.now names ends.now) (λ node. LacksDoneAt told.now names ends.now node) }
{
    for (node, end) in ends.iter().enumerate() {
        if lacks_done(told, places, node, *end) {
            return Some(node);
        }
    }
    None
}

/// The ticket with which a report is refused, if it is: the first at which told and the receipts differ, or else told's length
/// where some built node's last record is no 'done'.
fn refused_at(
    alloc: Global,
    told: &[Record],
    receipts: &[Receipt],
    names: &Names,
    ends: &[End],
) -> Result<Option<usize>, RunFault>
    requires { EachHasOneNumber names.now }
    ensures ok { IfOk result (λ found. MatchOption found (AreThoseOf told.now receipts.now × AllEndDone told.now names.now ends.now)
        (λ ticket. IsRefusedAt told.now receipts.now names.now ends.now ticket)) }
    ensures fault { IfErr result (λ fault. fault ≡ OutOfMemory) }
{
    if let Some(ticket) = first_difference(alloc, told, receipts)? {
        return Ok(Some(ticket));
    }
    let places = last_places(alloc, names, told)?;
    if first_lacking(told, &places, ends).is_some() {
        return Ok(Some(told.len()));
    }
    Ok(None)
}

impl<D: Disk + Drop> Closed<D> {
    /// The site of a run whose workers have ended.
    pub fn new(site: SiteIn<D>) -> Closed<D>
        ensures site { result.site ≡ site }
        ensures folded { site.state ≡ replay site.opening site.told }
    {
        let _told = site.told();
        Closed { site }
    }

    /// The report, where the receipts are those of the told records, each ticket just once, and the last of them of each built
    /// node is a 'done'. Then each built node is done with that record's commands whatever power cut comes, if the disk keeps
    /// its model and no call of it has failed. A site that writes another form than this is refused.
    pub fn report(
        &self,
        alloc: Global,
        form: Form,
        graph: &Graph,
        report: Report,
        receipts: &[Receipt],
    ) -> Result<Report, RunFault>
        ensures same { IfOk result (λ r. r ≡ report) }
        ensures form { IfOk result (λ r. self.now.site.newest ≡ form) }
        ensures receipts { IfOk result (λ r. AreThoseOf self.now.site.told receipts.now) }
        ensures built { IfOk result (λ r. AreTrueOf form self.now.site.told receipts.now
            (D.honest × (self.now.site.dead ≡ false)) (now (D.moments self.now.site.disk))
            graph.now.names r.ends.items) }
        ensures fault { IfErr result (IsReportFault (self.now.site.newest ≢ form) self.now.site.told receipts.now graph.now.names report.ends.items) }
    {
        if self.site.store().newest != form {
            drop(report);
            return Err(RunFault::Flush(FlushFault::OldVersion));
        }
        let told = self.site.told();
        match refused_at(alloc, told, receipts, &graph.names, &report.ends)? {
            None => Ok(report),
            Some(ticket) => Err(RunFault::Flush(FlushFault::Unknown(Ticket::new(ticket)))),
        }
    }
}
