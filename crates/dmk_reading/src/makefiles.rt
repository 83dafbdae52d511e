//! Which makefiles are read.

use byte_strings::ByteStrings;

/// What is read as the makefile.
pub struct Makefiles {
    /// The makefiles that are named, read one behind the other. Where none is, the usual one is read.
    pub named: ByteStrings,
    /// The folders in which a file that an include line names is looked for, if it isn't there.
    pub folders: ByteStrings,
    /// The rules that are built in aren't read in front of them.
    pub without_rules: bool,
    /// The files that are taken as old: their rules are ignored.
    pub old: ByteStrings,
}

impl Drop for Makefiles {
    fn drop(self) {
        let Makefiles {
            named: _,
            folders: _,
            without_rules: _,
            old: _,
        } = self;
    }
}
