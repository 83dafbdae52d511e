//! Definition lines: a name, a sign and a text.
ghost use Rattle.std.specs.Prelude.{◌≡◌, ◌&&◌, reverse, IfOk};
ghost use Rattle.std.specs.List.{list_any, list_all};
ghost use Rattle.byte_strings.specs.Blanks.{is_blank};
ghost use Rattle.mk_reader.specs.Form.{Gives, defined_as, is_no_name, named_form, kind_form, optional_form, assigned_form, definition_form, is_macro_name, conditional_at, set_form};
ghost use Rattle.mk_lines.specs.References.{first_outside};
ghost use Rattle.mk_reader.specs.Spelled.{without_plus, is_name_byte, begins_blank, is_apart};
ghost use Rattle.mk_lines.specs.declared.reference.Place.TheVariants.{Outside};

use crate::blanks::begins_blank;
use crate::fault::{Cause, Feature, ReadFault};
use crate::form::Form;
use crate::item::{Definition, DefinitionKind, DefinitionLine};
use crate::line_place::LinePlace;
use crate::refuse::refuse;
use byte_strings::{ByteString, is_blank, trim};
use mk_lines::{around, ends_with, first_outside, without_last};
use std::alloc::AllocError;

fn has_blank(bytes: &[u8]) -> bool
    ensures { result ≡ list_any is_blank bytes.now }
{
    bytes.iter().any(|byte| is_blank(*byte))
}

/// A definition whose value has no blanks at its ends.
#[tactic(auto, unfolding(crate::specs::Form::defined_as))]
fn defined_as(
    place: LinePlace<'_>,
    name: &[u8],
    append: bool,
    value: &[u8],
) -> Result<Definition, AllocError>
    ensures { IfOk result (λ d. d ≡ defined_as place.entry.file.now place.entry.number name.now append value.now) }
{
    Ok(Definition {
        file: place.file.share()?,
        line: place.number,
        name: ByteString::from_slice(place.alloc, name)?,
        append,
        value: ByteString::from_slice(place.alloc, trim(value))?,
        is_fixed: false,
    })
}

/// Whether this isn't one word.
#[tactic(auto, unfolding(crate::specs::Form::is_no_name))]
fn is_no_name(name: &[u8]) -> bool
    ensures { result ≡ is_no_name name.now }
{
    name.is_empty() || has_blank(name)
}

#[tactic(auto, unfolding(crate::specs::Form::named_form))]
fn named_form(
    place: LinePlace<'_>,
    name: &[u8],
    append: bool,
    value: &[u8],
) -> Result<Form, ReadFault>
    ensures { Gives result (named_form place.entry.file.now place.entry.number name.now append value.now) }
{
    if is_no_name(name) {
        return Err(refuse(place, Cause::MissingSeparator));
    }
    Ok(Form::Definition(defined_as(place, name, append, value)?))
}

#[tactic(auto, unfolding(crate::specs::Form::kind_form))]
pub fn kind_form(
    place: LinePlace<'_>,
    kind: DefinitionKind,
    name: &[u8],
    value: &[u8],
) -> Result<Form, ReadFault>
    ensures { Gives result (kind_form place.entry.file.now place.entry.number kind name.now value.now) }
{
    if is_no_name(name) {
        return Err(refuse(place, Cause::MissingSeparator));
    }
    let definition = defined_as(place, name, false, value)?;
    Ok(Form::DefinitionLine(DefinitionLine { kind, definition }))
}

#[tactic(auto, unfolding(crate::specs::Form::optional_form))]
fn optional_form(place: LinePlace<'_>, left: &[u8], right: &[u8]) -> Result<Form, ReadFault>
    ensures { Gives result (optional_form place.entry.profile place.entry.file.now place.entry.number left.now right.now) }
{
    if !place.profile.is_wide() {
        let cause = Cause::Unsupported(Feature::OptionalDefinition);
        return Err(refuse(place, cause));
    }
    kind_form(place, DefinitionKind::IfUndefined, trim(left), right)
}

#[tactic(auto, unfolding(crate::specs::Form::assigned_form))]
fn assigned_form(place: LinePlace<'_>, left: &[u8], right: &[u8]) -> Result<Form, ReadFault>
    ensures { Gives result (assigned_form place.entry.file.now place.entry.number left.now right.now) }
{
    if ends_with(left, b'+') {
        return named_form(place, trim(without_last(left)), true, right);
    }
    named_form(place, trim(left), false, right)
}

#[tactic(auto, unfolding(crate::specs::Form::definition_form))]
pub fn definition_form(place: LinePlace<'_>, left: &[u8], right: &[u8]) -> Result<Form, ReadFault>
    ensures { Gives result (definition_form place.entry.profile place.entry.file.now place.entry.number left.now right.now) }
{
    if ends_with(left, b'?') {
        return optional_form(place, without_last(left), right);
    }
    if place.profile.is_wide() && ends_with(left, b'!') {
        let name = trim(without_last(left));
        return kind_form(place, DefinitionKind::Output, name, right);
    }
    assigned_form(place, left, right)
}

fn is_name_byte(byte: u8) -> bool
    ensures { result ≡ is_name_byte byte }
{
    byte.is_ascii_alphanumeric() || byte == b'_' || byte == b'.'
}

fn has_name_bytes_alone(name: &[u8]) -> bool
    ensures { result ≡ list_all is_name_byte name.now }
{
    name.iter().all(|byte| is_name_byte(*byte))
}

/// Whether every make takes this for a macro's name.
#[tactic(auto, unfolding(crate::specs::Form::is_macro_name))]
fn is_macro_name(name: &[u8]) -> bool
    ensures { result ≡ is_macro_name name.now }
{
    !name.is_empty() && has_name_bytes_alone(name)
}

#[tactic(auto, unfolding(crate::specs::Spelled::without_plus))]
fn without_plus(left: &[u8]) -> &[u8]
    ensures { result.now ≡ without_plus left.now }
{
    if ends_with(left, b'+') {
        return without_last(left);
    }
    left
}

fn ends_blank(bytes: &[u8]) -> bool
    ensures { result ≡ begins_blank (reverse bytes.now) }
{
    match bytes.split_last() {
        Some((last, _)) => is_blank(*last),
        None => false,
    }
}

/// Whether blanks stand around the sign between these.
fn is_apart(left: &[u8], value: &[u8]) -> bool
    ensures { result ≡ is_apart left.now value.now }
{
    ends_blank(without_plus(left)) && (value.is_empty() || begins_blank(value))
}

/// Whether what stands behind `:=` is a definition, so that the line is that of a conditional macro.
#[tactic(auto, unfolding(crate::specs::Form::conditional_at))]
fn is_conditional(right: &[u8]) -> bool
    ensures { result ≡ conditional_at right.now (first_outside 61 61 Outside right.now) }
{
    match first_outside(right, b'=', b'=') {
        Some(at) => {
            let (left, value) = around(right, at);
            is_macro_name(trim(without_plus(left))) && is_apart(left, value)
        }
        None => false,
    }
}

#[tactic(auto, unfolding(crate::specs::Form::set_form))]
pub fn set_form(place: LinePlace<'_>, left: &[u8], right: &[u8]) -> Result<Form, ReadFault>
    ensures { Gives result (set_form place.entry.profile place.entry.file.now place.entry.number left.now right.now) }
{
    let name = trim(left);
    if !place.profile.is_wide() || is_no_name(name) || is_conditional(right) {
        let cause = Cause::Unsupported(Feature::ColonDefinition);
        return Err(refuse(place, cause));
    }
    kind_form(place, DefinitionKind::AtOnce, name, right)
}
