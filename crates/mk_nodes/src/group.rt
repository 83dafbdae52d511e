//! What one run of a rule of several targets makes.
use crate::file_look::FileLooks;
use byte_strings::ByteStrings;

/// What the run of a recipe for a name makes beside it.
pub struct Group {
    /// When the least of the files was changed that the run makes, the name's own among them; None where one is missing.
    pub made: Option<i128>,
    /// The other names.
    pub others: ByteStrings,
    /// What looks at these tell.
    pub looks: FileLooks,
}

impl Drop for Group {
    fn drop(self) {
        let Group {
            made: _,
            others: _,
            looks: _,
        } = self;
    }
}
