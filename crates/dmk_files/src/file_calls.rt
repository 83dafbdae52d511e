//! What is asked of the system, one call at a time. Nothing is claimed of the answers, but of which name each is.
ghost use Rattle.std.specs.Prelude.{◌≡◌, ℕ, List, Option, Some, None, true, IfOk, IfErr};
ghost use Rattle.std.specs.IoError.{error_kind};
ghost use Rattle.mk_nodes.specs.Look.{is_taken_as_old};
ghost use Rattle.mk_nodes.specs.declared.file_look.FileLook.{FileLook};
ghost use Rattle.dmk_files.specs.Files.{IsMissing, nanoseconds_of, look_of};

use byte_strings::ByteStrings;
use mk_nodes::FileLook;
use std::alloc::{AllocError, Global};
use std::io;

/// What is known of a file.
#[derive(Clone, Copy, Debug, PartialEq, Eq)]
pub struct FileStatus {
    /// When it was last changed: whole seconds since 1970, which may be negative.
    pub seconds: i64,
    /// The nanoseconds behind them.
    pub nanoseconds: i64,
    /// It is neither a folder nor a pipe, a device or a socket.
    pub is_ordinary: bool,
    /// How many bytes it has. Of what isn't ordinary it means nothing.
    pub bytes: u64,
}

impl FileStatus {
    /// The time in nanoseconds since 1970.
    fn time(&self) -> i128
        ensures { result ≡ nanoseconds_of self.now }
    {
        i128::from(self.seconds) * 1_000_000_000 + i128::from(self.nanoseconds)
    }

    /// What a look at the file tells.
    pub fn look(&self) -> FileLook
        ensures { result ≡ look_of self.now }
    {
        FileLook {
            time: self.time(),
            size: if self.is_ordinary {
                Some((self.bytes % (1 << 32)) as u32)
            } else {
                None
            },
        }
    }
}

/// The calls. Links are followed.
pub trait FileCalls {
    /// This was said of the file of this name, or that there is none: a fact that only a call with this name gives.
    ghost says: { List ℕ → Option FileLook → Type 0 };

    /// Whether the file of this name is taken as old, whatever is known of it.
    fn is_taken_as_old(&self, name: &str) -> bool
        ensures { result ≡ true → (look : FileLook) → is_taken_as_old (Some look) ≡ true → says name.now (Some look) };

    /// What is known of the file of this name. It opens no file.
    fn status(&mut self, name: &str) -> io::Result<FileStatus>
        ensures file { IfOk result (λ status. says name.now (Some (look_of status))) }
        ensures missing { IfErr result (λ error. IsMissing (error_kind error) → says name.now None) };

    /// All bytes of the file of this name, which is an ordinary one.
    fn contents(&mut self, alloc: Global, name: &str) -> io::Result<Vec<u8>>;

    /// The names in a folder without `.` and `..`; that of no name is the current one. A name that is no text is left out.
    fn names(&mut self, alloc: Global, folder: &str) -> io::Result<ByteStrings>;

    /// What this command writes, which a definition in this line of this file runs. That it fails is told by whoever runs it, and changes
    /// nothing.
    fn output(
        &mut self,
        alloc: Global,
        file: &[u8],
        line: usize,
        command: &[u8],
    ) -> Result<Vec<u8>, AllocError>;
}
