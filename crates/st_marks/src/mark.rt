//! What is kept of one file.

ghost use Rattle.std.specs.Prelude.{◌≡◌, FitsSigned};
ghost use Rattle.std.specs.Int.{w64};
ghost use Rattle.std.specs.Option.{SomeIff};
ghost use Rattle.st_marks.specs.declared.mark.Mark.TheVariants as mark;
ghost use Rattle.st_marks.specs.Encoding.{stamp_of};

/// By what an ordinary file is told from another one, and from itself before a change.
#[derive(Clone, Copy, Debug, PartialEq, Eq)]
pub struct Stamp {
    /// When it was last changed, in nanoseconds since 1970.
    pub time: i64,
    /// How many bytes it has, modulo 2^32.
    pub size: u32,
}

impl Stamp {
    /// The stamp of a file that was last changed at this time and has so many bytes; None where the time has no place in it.
    pub fn of(time: i128, bytes: u64) -> Option<Stamp>
        ensures { SomeIff result (FitsSigned w64 time) (stamp_of time bytes) }
    {
        match i64::try_from(time) {
            Ok(time) => Some(Stamp {
                time,
                size: (bytes % (1 << 32)) as u32,
            }),
            Err(_) => None,
        }
    }
}

/// What is kept of a file that went into a target, or came of its recipe.
#[derive(Clone, Copy, Debug, PartialEq, Eq)]
pub enum Mark {
    /// No look at it counts: it may have changed while the recipe was run.
    Unknown,
    NoFile,
    /// Something else than an ordinary file, such as a folder.
    Other,
    /// As it was when the recipe was begun.
    File(Stamp),
    /// The recipe writes it itself: as it was when the recipe had ended.
    Own(Stamp),
}

impl Mark {
    /// The mark of an ordinary file that was last changed at this time and has so many bytes.
    pub fn file(time: i128, bytes: u64) -> Mark
        ensures near { FitsSigned w64 time → result ≡ mark.File (stamp_of time bytes) }
        ensures far { ¬ FitsSigned w64 time → result ≡ mark.Unknown }
    {
        match Stamp::of(time, bytes) {
            Some(stamp) => Mark::File(stamp),
            None => Mark::Unknown,
        }
    }

    /// The same of a file that the recipe writes itself.
    pub fn own(time: i128, bytes: u64) -> Mark
        ensures near { FitsSigned w64 time → result ≡ mark.Own (stamp_of time bytes) }
        ensures far { ¬ FitsSigned w64 time → result ≡ mark.Unknown }
    {
        match Stamp::of(time, bytes) {
            Some(stamp) => Mark::Own(stamp),
            None => Mark::Unknown,
        }
    }
}
