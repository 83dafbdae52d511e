//! Whether a record keeps all limits, by one pass over each of its strings. Nearly all records that are read do.

ghost use Rattle.std.specs.Prelude.{◌≡◌, ◌+◌, false, None, nat_lt, length, IfSome, IsTrue};
ghost use Rattle.std.specs.List.{list_any, flat_map};
ghost use Rattle.st_records.specs.declared.version.Form.TheVariants as forms;
ghost use Rattle.st_records.specs.Clean.{is_unclean};
ghost use Rattle.st_records.specs.Encoding.{string};
ghost use Rattle.st_records.specs.Tests.{any_name, has_byte, is_empty_name, is_bad_name, is_long_name, has_bad_command, has_long_command, has_too_many, strings_length, fault_of};

use crate::limits::{MAX_COMMAND_BYTES, MAX_COMMANDS, MAX_EXPLICIT_NAMES, MAX_HIDDEN_NAMES};
use crate::record::Record;
use crate::version::Form;
use byte_strings::Iter;

impl Record {
    /// The record is seen to have no fault. Where it isn't, it may still have none: explicit names and marks are counted in
    /// each form, and a low byte of a name may be one that it may hold.
    pub(crate) fn is_seen_within(&self, form: Form) -> bool
        ensures { IsTrue result → fault_of form self.now ≡ None }
    {
        let room = form.max_record_bytes() - self.fixed_len(form);
        self.room_after_good(form, room).is_some()
    }

    // What is left of `room` after names and commands that are all good, and marks; none where one isn't or they do not fit.
    fn room_after_good(&self, form: Form, room: usize) -> Option<usize>
        ensures room { IfSome result (λ left. left + strings_length forms.Marked self.now ≡ room) }
        ensures empty { IfSome result (λ _. any_name is_empty_name self.now ≡ false) }
        ensures bad { IfSome result (λ _. any_name is_bad_name self.now ≡ false) }
        ensures long { IfSome result (λ _. any_name (is_long_name form) self.now ≡ false) }
        ensures bad_command { IfSome result (λ _. has_bad_command self.now ≡ false) }
        ensures long_command { IfSome result (λ _. has_long_command self.now ≡ false) }
        ensures many { IfSome result (λ _. has_too_many self.now ≡ false) }
    {
        let target = self.target().as_slice();
        if !is_good_name(target, form) {
            return None;
        }
        let (commands, hidden, explicit) = (self.commands(), self.hidden(), self.explicit());
        if commands.len() > MAX_COMMANDS
            || hidden.len() > MAX_HIDDEN_NAMES
            || explicit.len() > MAX_EXPLICIT_NAMES
        {
            return None;
        }
        let room = room.checked_sub(target.len())?;
        let room = room_after_commands(commands, room)?;
        let room = room_after_names(hidden, form, room)?;
        let room = room_after_names(explicit, form, room)?;
        room.checked_sub(self.marks().len())
    }
}

/// Whether all is clean with this string: it could be a name. Nearly all commands could.
#[tactic(auto, using(crate::proofs::Clean::clean_from))]
pub fn still_clean(clean: bool, form: Form, string: &[u8]) -> bool
    ensures { IsTrue result → IsTrue clean × (is_unclean form string.now ≡ false) }
{
    clean && is_good_name(string, form)
}

fn room_after_names(names: Iter<'_>, form: Form, room: usize) -> Option<usize>
    ensures room { IfSome result (λ left. left + length (flat_map string names.entry) ≡ room) }
    ensures empty { IfSome result (λ _. list_any is_empty_name names.entry ≡ false) }
    ensures bad { IfSome result (λ _. list_any is_bad_name names.entry ≡ false) }
    ensures long { IfSome result (λ _. list_any (is_long_name form) names.entry ≡ false) }
{
    let mut left = room;
    for name in names {
        if !is_good_name(name, form) {
            return None;
        }
        left = left.checked_sub(4)?.checked_sub(name.len())?;
    }
    Some(left)
}

fn room_after_commands(commands: Iter<'_>, room: usize) -> Option<usize>
    ensures room { IfSome result (λ left. left + length (flat_map string commands.entry) ≡ room) }
    ensures bad { IfSome result (λ _. list_any (λ command. has_byte 0 command) commands.entry ≡ false) }
    ensures long { IfSome result (λ _. list_any (λ command. nat_lt MAX_COMMAND_BYTES (length command)) commands.entry ≡ false) }
{
    let mut left = room;
    for command in commands {
        if command.len() > MAX_COMMAND_BYTES || has_nul(command) {
            return None;
        }
        left = left.checked_sub(4)?.checked_sub(command.len())?;
    }
    Some(left)
}

#[tactic(auto, using(crate::proofs::Low::none_bad))]
fn is_good_name(name: &[u8], form: Form) -> bool
    ensures empty { IsTrue result → is_empty_name name.now ≡ false }
    ensures bad { IsTrue result → is_bad_name name.now ≡ false }
    ensures long { IsTrue result → is_long_name form name.now ≡ false }
{
    !name.is_empty() && name.len() <= form.max_name_bytes() && !has_low_byte(name)
}

// Whether a byte is a newline or one of those before it, NUL among them. It is one comparison a byte, and each byte is
// looked at, without an early end, so that many can be looked at together.
fn has_low_byte(name: &[u8]) -> bool
    ensures { result ≡ list_any (λ byte. nat_lt byte 11) name.now }
{
    let mut found = false;
    for &byte in name {
        found |= byte < 11;
    }
    found
}

fn has_nul(command: &[u8]) -> bool
    ensures { result ≡ has_byte 0 command.now }
{
    let mut found = false;
    for &byte in command {
        found |= byte == 0;
    }
    found
}
