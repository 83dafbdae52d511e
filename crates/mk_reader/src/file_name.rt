//! The name of a file, which all that stands in the file shares.
ghost use Rattle.std.specs.Prelude.{◌≡◌, IfOk};

use byte_strings::ByteString;
use std::alloc::{AllocError, Global};
use std::marker::Model;
use std::sync::Arc;

/// The name under which the rules are read that are built in.
pub const BUILT_IN: &[u8] = b"(built-in)";

/// A file's name as it was given, or as it stands on the include line. Contracts see its bytes.
///
/// Its count is an atomic one, since workers share the graph, whose rule lines hold names.
pub struct FileName {
    shared: Arc<ByteString>,
}

impl Model for FileName {
    ghost use Rattle.std.specs.Prelude.{List, ℕ};

    ghost Value = { List ℕ };

    ghost view = { λ name. name.shared.value };
}

impl Drop for FileName {
    fn drop(self) {
        let FileName { shared: _ } = self;
    }
}

impl FileName {
    pub fn new(alloc: Global, name: &[u8]) -> Result<FileName, AllocError>
        ensures { IfOk result (λ file. file ≡ name.now) }
    {
        let name = ByteString::from_slice(alloc, name)?;
        let shared = Arc::new(alloc, name)?;
        Ok(FileName { shared })
    }

    pub fn as_slice(&self) -> &[u8]
        ensures { result.now ≡ self.now }
    {
        self.shared.as_slice()
    }

    /// The same name once more, which takes no memory.
    pub fn share(&self) -> Result<FileName, AllocError>
        ensures { IfOk result (λ file. file ≡ self.now) }
    {
        let shared = Arc::try_clone(&self.shared)?;
        Ok(FileName { shared })
    }
}
