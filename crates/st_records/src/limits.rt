//! What may stand in a record: names that are not empty and hold neither NUL nor newline, commands without NUL, and
//! not too much of each.

ghost use Rattle.std.specs.Prelude.{◌≡◌, ◌+◌, ◌<◌, nat_lt, length, MatchOption, MatchResult};
ghost use Rattle.std.specs.List.{list_any, flat_map};
ghost use Rattle.st_records.specs.declared.version.Version.TheVariants as versions;
ghost use Rattle.st_records.specs.declared.version.Form.TheVariants as forms;
ghost use Rattle.st_records.specs.Encoding.{string};
ghost use Rattle.st_records.specs.Limits.{max_name_bytes_in, max_record_bytes_in, IsWithin, IsFirstFault, IsWithinIn, IsFirstFaultIn};
ghost use Rattle.st_records.specs.Tests.{any_name, has_byte, is_empty_name, is_bad_name, is_long_name, has_bad_command, has_long_command, is_overlong, fixed_length, known_length, strings_length, has_too_many, fault_of};

use crate::record::{Explicit, Record};
use crate::version::Form;
use byte_strings::Iter;
use thiserror::Error;

/// The bytes of a target, a hidden name or an explicit one.
pub const MAX_NAME_BYTES: usize = 65_535;
/// The bytes of a name in version 1.
pub const MAX_NAME_BYTES_IN_ONE: usize = 4096;
/// The bytes of a command.
pub const MAX_COMMAND_BYTES: usize = 65_535;
/// The bytes of a record in the file; a kept record's phase and status do not count, nor the byte that says which of its
/// explicit names and marks are known.
pub const MAX_RECORD_BYTES: usize = 16_777_216;
/// The bytes of a record in a file of version 1.
pub const MAX_RECORD_BYTES_IN_ONE: usize = 1_048_576;
/// The commands of a record.
pub const MAX_COMMANDS: usize = 1000;
/// The hidden names of a record.
pub const MAX_HIDDEN_NAMES: usize = 4096;
/// The explicit names of a record.
pub const MAX_EXPLICIT_NAMES: usize = 65_536;

impl Form {
    pub(crate) fn max_name_bytes(self) -> usize
        ensures { result ≡ max_name_bytes_in self }
    {
        match self {
            Form::Old => MAX_NAME_BYTES_IN_ONE,
            Form::Plain | Form::Marked => MAX_NAME_BYTES,
        }
    }

    pub fn max_record_bytes(self) -> usize
        ensures { result ≡ max_record_bytes_in self }
    {
        match self {
            Form::Old => MAX_RECORD_BYTES_IN_ONE,
            Form::Plain | Form::Marked => MAX_RECORD_BYTES,
        }
    }
}

/// Why a record may not stand in a state file. Of several faults the first in this order counts.
#[derive(Clone, Copy, Debug, PartialEq, Eq, Error)]
pub enum RecordFault {
    #[error("a name is empty")]
    EmptyName,
    /// A NUL or a newline in a name, or a NUL in a command.
    #[error("a byte that may not stand there")]
    BadByte,
    #[error("a name, a command or the record is too long")]
    TooLong,
    #[error("too many commands, hidden names or explicit names")]
    TooMany,
}

impl Record {
    /// The first fault of the record by the limits of version 2, or none. It takes no memory.
    ///
    /// A done record whose explicit names are unknown is measured as one that has none.
    pub fn check(&self) -> Result<(), RecordFault>
        ensures { MatchResult result (λ _. IsWithin versions.Two self.now) (λ fault. IsFirstFault versions.Two self.now fault) }
    {
        self.check_in(Form::Plain)
    }

    /// The same by the limits of a form.
    pub fn check_in(&self, form: Form) -> Result<(), RecordFault>
        ensures { MatchResult result (λ _. IsWithinIn form self.now) (λ fault. IsFirstFaultIn form self.now fault) }
    {
        match self.fault(form) {
            None => Ok(()),
            Some(fault) => Err(fault),
        }
    }

    /// The first fault by the limits of a form.
    pub fn fault(&self, form: Form) -> Option<RecordFault>
        ensures { result ≡ fault_of form self.now }
    {
        if self.is_seen_within(form) {
            return None;
        }
        self.fault_in_order(form)
    }

    // One test after the other, each over all strings.
    fn fault_in_order(&self, form: Form) -> Option<RecordFault>
        ensures { result ≡ fault_of form self.now }
    {
        if self.has_empty_name() {
            return Some(RecordFault::EmptyName);
        }
        if self.has_bad_name() || self.has_bad_command() {
            return Some(RecordFault::BadByte);
        }
        if self.has_long_name(form) || self.has_long_command() || self.is_overlong(form) {
            return Some(RecordFault::TooLong);
        }
        if self.has_too_many() {
            return Some(RecordFault::TooMany);
        }
        None
    }

    fn has_empty_name(&self) -> bool
        ensures { result ≡ any_name is_empty_name self.now }
    {
        self.target().as_slice().is_empty()
            || any_empty_name(self.hidden())
            || any_empty_name(self.explicit())
    }

    fn has_bad_name(&self) -> bool
        ensures { result ≡ any_name is_bad_name self.now }
    {
        is_bad_name(self.target().as_slice())
            || any_bad_name(self.hidden())
            || any_bad_name(self.explicit())
    }

    fn has_bad_command(&self) -> bool
        ensures { result ≡ has_bad_command self.now }
    {
        any_bad_command(self.commands())
    }

    fn has_long_name(&self, form: Form) -> bool
        ensures { result ≡ any_name (is_long_name form) self.now }
    {
        let limit = form.max_name_bytes();
        self.target().as_slice().len() > limit
            || any_longer(self.hidden(), limit)
            || any_longer(self.explicit(), limit)
    }

    fn has_long_command(&self) -> bool
        ensures { result ≡ has_long_command self.now }
    {
        any_longer(self.commands(), MAX_COMMAND_BYTES)
    }

    fn has_too_many(&self) -> bool
        ensures { result ≡ has_too_many self.now }
    {
        self.commands().len() > MAX_COMMANDS
            || self.hidden().len() > MAX_HIDDEN_NAMES
            || self.explicit().len() > MAX_EXPLICIT_NAMES
    }

    /// More than the bytes that a record may have in this form.
    fn is_overlong(&self, form: Form) -> bool
        ensures { result ≡ is_overlong form self.now }
    {
        let room = form.max_record_bytes() - self.fixed_len(form);
        self.room_after_strings(form, room).is_none()
    }

    /// What is left of `room` after the names and commands, and the marks, as this form has them; none where they do not fit.
    pub(crate) fn room_after_strings(&self, form: Form, room: usize) -> Option<usize>
        ensures { MatchOption result (room < strings_length form self.now) (λ left. left + strings_length form self.now ≡ room) }
    {
        let room = room.checked_sub(self.target().as_slice().len())?;
        let room = room_after(self.commands(), room)?;
        let room = room_after(self.hidden(), room)?;
        match form {
            Form::Old => Some(room),
            Form::Plain => room_after(self.explicit(), room),
            Form::Marked => room_after(self.explicit(), room)?.checked_sub(self.marks().len()),
        }
    }

    /// The bytes that count and are there whatever a record's names and commands hold.
    pub(crate) fn fixed_len(&self, form: Form) -> usize
        ensures { result ≡ fixed_length form self.now }
    {
        match self {
            Record::Begun { .. } => 5,
            Record::Done { .. } => match form {
                Form::Old => 13,
                Form::Plain => 17,
                Form::Marked => 22,
            },
            Record::Failed { .. } => 9,
            Record::Kept { entry, .. } => known_len(form, &entry.explicit),
        }
    }
}

/// The same of a kept record with these explicit names.
fn known_len(form: Form, explicit: &Explicit) -> usize
    ensures { result ≡ known_length form explicit.now }
{
    match form {
        Form::Old => 13,
        Form::Plain => match explicit {
            Explicit::Unknown => 13,
            Explicit::Known(_) => 17,
            Explicit::Marked(_, _) => 17,
        },
        Form::Marked => match explicit {
            Explicit::Unknown => 13,
            Explicit::Known(_) => 17,
            Explicit::Marked(_, _) => 21,
        },
    }
}

fn any_empty_name(mut names: Iter<'_>) -> bool
    ensures { result ≡ list_any is_empty_name names.entry }
{
    names.any(|name| name.is_empty())
}

fn is_bad_name(name: &[u8]) -> bool
    ensures { result ≡ is_bad_name name.now }
{
    name.contains(&0) || name.contains(&b'\n')
}

fn any_bad_name(mut names: Iter<'_>) -> bool
    ensures { result ≡ list_any is_bad_name names.entry }
{
    names.any(|name| is_bad_name(name))
}

fn any_bad_command(mut commands: Iter<'_>) -> bool
    ensures { result ≡ list_any (λ command. has_byte 0 command) commands.entry }
{
    commands.any(|command| command.contains(&0))
}

fn any_longer(mut strings: Iter<'_>, limit: usize) -> bool
    ensures { result ≡ list_any (λ bytes. nat_lt limit (length bytes)) strings.entry }
{
    strings.any(|bytes| bytes.len() > limit)
}

/// What is left of `room` after the items, each with the four bytes of its length; none where they do not fit.
pub fn room_after(items: Iter<'_>, room: usize) -> Option<usize>
    ensures { MatchOption result (room < length (flat_map string items.entry)) (λ left. left + length (flat_map string items.entry) ≡ room) }
{
    let mut left = room;
    for item in items {
        left = left.checked_sub(4)?.checked_sub(item.len())?;
    }
    Some(left)
}
