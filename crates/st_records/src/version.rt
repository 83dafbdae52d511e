//! The versions of the state file, and the forms of the records in it.

ghost use Rattle.std.specs.Prelude.{◌≡◌};
ghost use Rattle.st_records.specs.Forms.{form_of};

/// A form of the state file. Two is the one that is written; One is still read.
#[derive(Clone, Copy, Debug, PartialEq, Eq)]
pub enum Version {
    /// Names of up to 4,096 bytes, and no explicit prerequisites.
    One,
    /// Names of up to 65,535 bytes, and the explicit prerequisites of what is done.
    Two,
}

impl Version {
    /// The form of the records in a file of this version.
    pub fn form(self) -> Form
        ensures { result ≡ form_of self }
    {
        match self {
            Version::One => Form::Old,
            Version::Two => Form::Plain,
        }
    }
}

/// How records are written: what one that is done says of what its target was made of.
#[derive(Clone, Copy, Debug, PartialEq, Eq)]
pub enum Form {
    /// Nothing of explicit prerequisites, as in version 1.
    Old,
    /// The explicit prerequisites, as in version 2.
    Plain,
    /// And which files all of them were, by their marks, as in version 4.
    Marked,
}
