//! What a place tells of the files under its names.
ghost use Rattle.std.specs.Prelude.{ℕ, ℤ, List};

/// What the system tells of a name, links followed.
#[derive(Clone, Copy, Debug, PartialEq, Eq)]
pub enum Sight {
    NoFile,
    /// Something else than an ordinary file, such as a folder or a device.
    Other,
    /// An ordinary file. Times are in nanoseconds since 1970.
    File {
        /// When what it holds was last changed.
        time: i128,
        /// How many bytes it has.
        size: u64,
        /// When anything of it was last changed, its names and its rights too (its `ctime`), which no program can set.
        changed: i128,
    },
}

/// Where files are looked at. Nothing is claimed of it: what files there are is outside every proof.
pub trait Sights {
    ghost use Rattle.jb_marks.specs.declared.sights.Sight.{Sight};

    /// The place has told this of the name: a fact that only a call of `look` gives.
    ghost told: { Self → List ℕ → Sight → Type 0 };

    /// The clock has stood there: a fact that only a call of `tick` gives.
    ghost ticked: { Self → ℤ → Type 0 };

    /// What is there under a name. One that can't be looked at has no file.
    fn look(&self, name: &[u8]) -> Sight
        ensures { told self.now name.now result };

    /// What the clock says by which files are stamped, in nanoseconds since 1970. It may stand still for some milliseconds.
    fn tick(&self) -> i128
        ensures { ticked self.now result };
}
