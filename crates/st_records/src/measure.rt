//! How many bytes a record takes in the file, before a byte of it is written.

ghost use Rattle.std.specs.Prelude.{◌≡◌, ◌+◌, ◌<◌, length, MatchOption};
ghost use Rattle.st_records.specs.declared.version.Version.TheVariants as versions;
ghost use Rattle.st_records.specs.Encoding.{encoding, encoding_in};
ghost use Rattle.st_records.specs.Tests.{kept_length, plain_length};

use crate::record::{Explicit, Record};
use crate::version::Form;

impl Record {
    /// What is left of `room` after the bytes of the record in a file of version 2; None where they do not fit. It takes
    /// no memory.
    pub fn room_left(&self, room: usize) -> Option<usize>
        ensures { MatchOption result (room < length (encoding versions.Two self.now))
            (λ left. left + length (encoding versions.Two self.now) ≡ room) }
    {
        self.room_left_in(Form::Plain, room)
    }

    /// The same of the record in a form.
    pub fn room_left_in(&self, form: Form, room: usize) -> Option<usize>
        ensures { MatchOption result (room < length (encoding_in form self.now))
            (λ left. left + length (encoding_in form self.now) ≡ room) }
    {
        let room = room.checked_sub(self.plain_len(form))?;
        self.room_after_strings(form, room)
    }

    /// The bytes beside those of names, commands and marks: kind, lengths and counts, phase and status.
    fn plain_len(&self, form: Form) -> usize
        ensures { result ≡ plain_length form self.now }
    {
        match self {
            Record::Kept { entry, .. } => kept_len(form, &entry.explicit),
            _ => self.fixed_len(form),
        }
    }
}

/// The same of a kept record with these explicit names.
fn kept_len(form: Form, explicit: &Explicit) -> usize
    ensures { result ≡ kept_length form explicit.now }
{
    match form {
        Form::Old => 18,
        Form::Plain => match explicit {
            Explicit::Unknown => 19,
            Explicit::Known(_) => 23,
            Explicit::Marked(_, _) => 23,
        },
        Form::Marked => match explicit {
            Explicit::Unknown => 19,
            Explicit::Known(_) => 23,
            Explicit::Marked(_, _) => 27,
        },
    }
}
