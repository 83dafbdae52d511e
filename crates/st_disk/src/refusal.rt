//! Which error of opening a file to be written leaves it to be read.
ghost use Rattle.std.specs.Prelude.{◌≡◌, true, false};
ghost use Rattle.std.specs.IoError.{error_kind};
ghost use Rattle.st_disk.specs.Refusal.{IsRefusal};

use std::io::{self, ErrorKind};

/// Writing was refused, and nothing else went wrong.
pub(crate) fn refuses_writing(error: &io::Error) -> bool
    ensures refusals { result ≡ true → IsRefusal (error_kind error.now) }
    ensures others { result ≡ false → IsRefusal (error_kind error.now) → ⊥ }
{
    let kind = error.kind();
    kind == ErrorKind::PermissionDenied || kind == ErrorKind::ReadOnlyFilesystem
}
