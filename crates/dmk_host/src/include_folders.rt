//! The folders in which files that include lines name are looked for.
use byte_strings::ByteStrings;
use dmk_reading::Makefiles;
use std::alloc::{AllocError, Global};

/// The makefiles that are read where the words name none.
const USUAL: [&[u8]; 2] = [b"makefile", b"Makefile"];

/// Where a file that an include line names is looked for, if it isn't there (GNU make, "Including Other Makefiles"), in this order.
#[derive(Drop)]
pub struct IncludeFolders {
    folders: ByteStrings,
    /// The makefiles that the words name.
    named: ByteStrings,
}

impl IncludeFolders {
    pub fn of(alloc: Global, makefiles: &Makefiles) -> Result<IncludeFolders, AllocError> {
        Ok(IncludeFolders {
            folders: makefiles.folders.copy(alloc)?,
            named: makefiles.named.copy(alloc)?,
        })
    }

    /// Whether the words name this makefile.
    pub(crate) fn names_makefile(&self, name: &str) -> bool {
        self.named.iter().any(|named| named == name.as_bytes())
    }

    /// Whether it is a makefile that no include line names: it isn't looked for.
    fn is_own(&self, name: &str) -> bool {
        if self.named.is_empty() {
            USUAL.contains(&name.as_bytes())
        } else {
            self.names_makefile(name)
        }
    }

    pub(crate) fn are_none(&self) -> bool {
        self.folders.is_empty()
    }

    /// The paths at which a name is looked for.
    pub(crate) fn paths(&self, alloc: Global, name: &str) -> Result<Vec<String>, AllocError> {
        let mut paths = Vec::new(alloc);
        if name.starts_with('/') || self.is_own(name) {
            return Ok(paths);
        }
        for folder in self.folders.iter() {
            let folder = str::from_utf8(folder).unwrap_or("");
            paths.push(format!(in alloc; "{folder}/{name}")?)?;
        }
        Ok(paths)
    }
}
