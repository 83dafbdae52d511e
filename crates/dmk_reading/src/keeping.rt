//! Whether state is kept, and what the environment says else.
ghost use Rattle.std.specs.Prelude.{◌≡◌, find, option_copied};
ghost use Rattle.std.specs.List.{list_any};
ghost use Rattle.dmk_reading.specs.Keeping.{is_named, is_keep_item, keeps, kept_form, value_in};

use bd_lists::Variable;
use mk_profile::Profile;
use mk_reader::{Item, SpecialName};
use st_records::Form;

/// Whether the variable has this name.
pub(crate) fn is_named(name: &[u8], variable: &Variable) -> bool
    ensures { result ≡ is_named name.now variable.now }
{
    name == variable.name.as_slice()
}

fn has_variable(environment: &[Variable], name: &[u8]) -> bool
    ensures { result ≡ list_any (is_named name.now) environment.now }
{
    environment.iter().any(|variable| is_named(name, variable))
}

fn is_keep_item(item: &Item) -> bool
    ensures { result ≡ is_keep_item item.now }
{
    match item {
        Item::Definition(_) => false,
        Item::Rule(_) => false,
        Item::Special(special) => match special.name {
            SpecialName::KeepState => true,
            _ => false,
        },
    }
}

fn has_keep_item(items: &[Item]) -> bool
    ensures { result ≡ list_any is_keep_item items.now }
{
    items.iter().any(|item| is_keep_item(item))
}

/// Whether state is kept: the environment has `KEEP_STATE`, or the makefile the special rule.
pub fn keeps_state(environment: &[Variable], items: &[Item]) -> bool
    ensures { result ≡ keeps environment.now items.now }
{
    has_variable(environment, b"KEEP_STATE") || has_keep_item(items)
}

/// The form of the records that are written where state is kept, and the newest that is read: in the wide profile they say which files
/// a target was made of.
pub fn kept_form(profile: Profile) -> Form
    ensures { result ≡ kept_form profile }
{
    match profile {
        Profile::Strict => Form::Plain,
        Profile::Posix => Form::Marked,
    }
}

/// The first variable of a name.
fn variable_named<'e>(environment: &'e [Variable], name: &[u8]) -> Option<&'e Variable>
    ensures { option_copied result ≡ find (is_named name.now) environment.now }
{
    environment.iter().find(|variable| is_named(name, variable))
}

/// The value of a variable of the environment, empty where there is none.
pub fn value_of<'e>(environment: &'e [Variable], name: &[u8]) -> &'e [u8]
    ensures { result.now ≡ value_in environment.now name.now }
{
    match variable_named(environment, name) {
        Some(variable) => variable.value.as_slice(),
        None => &[],
    }
}
