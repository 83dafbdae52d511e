//! The calls that a memory disk keeps.
ghost use Rattle.std.specs.Prelude.{◌≡◌};

use st_disk::Which;

/// A call that was made. The bytes of a write stand in the disk's `written`, behind those of the writes before it.
#[derive(Clone, Copy)]
pub enum Call {
    Write { side: Which, at: usize, len: usize },
    Cut { side: Which, len: usize },
    Sync { side: Which },
}

impl Call {
    ghost use Rattle.st_memory.specs.Memory.{size_of};

    /// How many bytes it wrote.
    pub(crate) fn size(&self) -> usize
        ensures { result ≡ size_of self.now }
    {
        match *self {
            Call::Write { len, .. } => len,
            Call::Cut { .. } | Call::Sync { .. } => 0,
        }
    }
}
