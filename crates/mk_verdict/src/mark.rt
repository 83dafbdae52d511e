//! What the state has of a file, against what a look at it tells.
ghost use Rattle.std.specs.Prelude.{◌≡◌};
ghost use Rattle.mk_verdict.specs.Marks.{mark_of};
ghost use Rattle.mk_verdict.specs.Tests.{same_look, mark_differs, is_timed, is_replaced};

/// What a look at a name tells of its file.
#[derive(Clone, Copy)]
pub enum Look {
    NoFile,
    /// A folder or a device: its time alone counts.
    Other,
    /// An ordinary file, last changed then (nanoseconds since 1970), with so many bytes (modulo 2^32).
    File { time: i128, size: u32 },
}

/// What the state has of a file that went into a target, or came of its recipe.
#[derive(Clone, Copy)]
pub enum Mark {
    /// Marks aren't kept, and the file's time counts.
    NotKept,
    /// The file may have changed while the recipe was run.
    Unknown,
    Was(Look),
}

/// One of the files that a target's recipe makes.
#[derive(Clone, Copy)]
pub struct MadeFile {
    /// The file now. It counts only where a mark of it is kept.
    pub look: Look,
    /// The file as the recipe has left it.
    pub mark: Mark,
}

impl Look {
    fn is_same(self, other: Look) -> bool
        ensures { result ≡ same_look self other }
    {
        match (self, other) {
            (Look::NoFile, Look::NoFile) => true,
            (Look::Other, Look::Other) => true,
            (
                Look::File { time, size },
                Look::File {
                    time: now,
                    size: bytes,
                },
            ) => time == now && size == bytes,
            _ => false,
        }
    }
}

impl Mark {
    /// The mark where state is kept, else none.
    pub(crate) fn kept(self, keeping: bool) -> Mark
        ensures { result ≡ mark_of keeping self }
    {
        if keeping { self } else { Mark::NotKept }
    }

    /// Whether the file isn't, or may not be, the one that is recorded.
    pub fn differs(self, look: Look) -> bool
        ensures { result ≡ mark_differs self look }
    {
        match self {
            Mark::NotKept => false,
            Mark::Unknown => true,
            Mark::Was(was) => !was.is_same(look),
        }
    }

    /// Whether the file's time is what counts.
    pub fn is_timed(self) -> bool
        ensures { result ≡ is_timed self }
    {
        match self {
            Mark::NotKept => true,
            Mark::Unknown => false,
            Mark::Was(was) => match was {
                Look::NoFile => false,
                Look::Other => true,
                Look::File { .. } => false,
            },
        }
    }
}

impl MadeFile {
    /// Whether the file isn't, or may not be, the one that the recipe has left.
    pub(crate) fn is_replaced(&self, keeping: bool) -> bool
        ensures { result ≡ is_replaced keeping self.now }
    {
        self.mark.kept(keeping).differs(self.look)
    }
}
