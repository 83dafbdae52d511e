//! The syncs of one folder, one behind the other, and what they serve.
ghost use Rattle.std.specs.Prelude.{◌≡◌, ◌<◌, ◌≤◌, ◌↔◌, IsTrue, true, false};

/// What is known of a folder's syncs while somebody wants it synced.
#[derive(Drop)]
pub(crate) struct FolderSyncs {
    /// How many began.
    begun: u64,
    /// The number of the last one that ended well, counted from 1; 0 before.
    ended: u64,
    /// Whether the last one that began still runs.
    is_running: bool,
    ghost in_order: { ended ≤ begun },
}

/// How many syncs of a folder had begun when a worker asked for one.
#[derive(Clone, Copy)]
pub(crate) struct Ticket {
    begun: u64,
}

impl FolderSyncs {
    ghost use Rattle.jb_host.specs.Syncs.{Becomes, begins, ends_well, fails};

    pub(crate) fn new() -> FolderSyncs
        ensures { result.is_running ≡ false }
    {
        FolderSyncs {
            begun: 0,
            ended: 0,
            is_running: false,
        }
    }

    pub(crate) fn ticket(&self) -> Ticket
        ensures { result.begun ≡ self.now.begun }
    {
        Ticket { begun: self.begun }
    }

    /// Whether a sync that began behind the ticket ended well.
    pub(crate) fn serves(&self, ticket: Ticket) -> bool
        ensures { IsTrue result ↔ (ticket.begun < self.now.ended) }
    {
        ticket.begun < self.ended
    }

    /// Whether who has the ticket waits: it isn't served, and a sync runs.
    pub(crate) fn holds_up(&self, ticket: Ticket) -> bool
        ensures { IsTrue result ↔ ((self.now.is_running ≡ true) × (self.now.ended ≤ ticket.begun)) }
    {
        self.is_running && !self.serves(ticket)
    }

    /// A sync begins, unless one runs or no more can be counted: then it is false.
    pub(crate) fn begin(&mut self) -> bool
        ensures begun { IsTrue result → Becomes begins self.old self.new }
        ensures idle { self.old.is_running ≡ false → self.old.begun < u64.MAX → IsTrue result }
        ensures left { result ≡ false → self.new ≡ self.old }
    {
        if self.is_running {
            return false;
        }
        let Some(begun) = self.begun.checked_add(1) else {
            return false;
        };
        self.begun = begun;
        self.is_running = true;
        true
    }

    /// The sync that runs has ended.
    pub(crate) fn end(&mut self, is_well: bool)
        ensures well { self.old.is_running ≡ true → IsTrue is_well → Becomes ends_well self.old self.new }
        ensures failed { self.old.is_running ≡ true → is_well ≡ false → Becomes fails self.old self.new }
        ensures left { self.old.is_running ≡ false → self.new ≡ self.old }
    {
        if self.is_running && is_well {
            self.ended = self.begun;
        }
        self.is_running = false;
    }
}
