//! What is known of a name.
ghost use Rattle.std.specs.Prelude.{◌≡◌, Some, None, OnOk, OnErr, IfOk};
ghost use Rattle.mk_functions.specs.Shown.{variable_of};
ghost use Rattle.mk_variables.specs.Definition.{defined, marked, new_entry, redefined, replaced_by, defined_anew, appended_to, met_entry, put_at};
ghost use Rattle.mk_variables.specs.Statement.{shared_as};
ghost use Rattle.mk_variables.specs.Shown.{entry_of};

use crate::rank::{is_of_environment, is_passed_over, met};
use crate::value::{flavor_by, join, text_by};
use mk_assignments::{Modifiers, Sign};
use mk_functions::{Flavor, Origin, Variable};
use std::alloc::{AllocError, Global};

/// What was said last of a variable's export.
#[derive(Clone, Copy, Debug, PartialEq, Eq)]
pub enum Sharing {
    Unsaid,
    Exported,
    Unexported,
}

/// How a definition is to be taken.
#[derive(Clone, Copy)]
pub(crate) struct Manner {
    /// Whether the variables of the environment count before those of makefiles.
    pub(crate) is_environment_first: bool,
    pub(crate) modifiers: Modifiers,
    pub(crate) origin: Origin,
    pub(crate) sign: Sign,
}

/// A name's variable, and what else is known of it.
#[derive(Drop)]
pub(crate) struct Entry {
    text: Vec<u8>,
    flavor: Flavor,
    origin: Origin,
    sharing: Sharing,
    is_private: bool,
}

impl Entry {
    /// Of a variable of which nothing else is known.
    pub(crate) fn new(text: Vec<u8>, flavor: Flavor, origin: Origin) -> Entry
        ensures { entry_of result ≡ new_entry (record { text = text.items; flavor = flavor; origin = origin }) }
    {
        Entry {
            text,
            flavor,
            origin,
            sharing: Sharing::Unsaid,
            is_private: false,
        }
    }

    pub(crate) fn variable(&self) -> Variable<'_>
        ensures { variable_of result ≡ (entry_of self.now).variable }
    {
        Variable {
            text: self.text.as_slice(),
            flavor: self.flavor,
            origin: self.origin,
        }
    }

    pub(crate) fn sharing(&self) -> Sharing
        ensures { result ≡ (entry_of self.now).sharing }
    {
        self.sharing
    }

    pub(crate) fn is_private(&self) -> bool
        ensures { result ≡ (entry_of self.now).is_private }
    {
        self.is_private
    }

    pub(crate) fn origin(&self) -> Origin
        ensures { result ≡ (entry_of self.now).variable.origin }
    {
        self.origin
    }

    pub(crate) fn share(&mut self, sharing: Sharing)
        ensures { entry_of self.new ≡ shared_as sharing (Some (entry_of self.old)) }
    {
        self.sharing = sharing;
    }

    /// Takes in that a definition meets the variable.
    pub(crate) fn meet(&mut self, is_environment_first: bool)
        ensures { entry_of self.new ≡ met_entry is_environment_first (entry_of self.old) }
    {
        self.origin = met(is_environment_first, self.origin);
    }

    /// Puts a variable in place of the one that is there.
    pub(crate) fn put(&mut self, text: Vec<u8>, flavor: Flavor, origin: Origin)
        ensures { entry_of self.new ≡ put_at (record { text = text.items; flavor = flavor; origin = origin }) (Some (entry_of self.old)) }
    {
        self.text = text;
        self.flavor = flavor;
        self.origin = origin;
        if is_of_environment(origin) {
            self.sharing = Sharing::Exported;
        }
    }

    /// Takes the words in front of a definition.
    pub(crate) fn mark(&mut self, modifiers: Modifiers)
        ensures { entry_of self.new ≡ marked modifiers (entry_of self.old) }
    {
        if modifiers.is_exported {
            self.sharing = Sharing::Exported;
        }
        if modifiers.is_private {
            self.is_private = true;
        }
    }

    fn replace(&mut self, alloc: Global, manner: Manner, value: Vec<u8>) -> Result<(), AllocError>
        ensures ok { OnOk result
            (entry_of self.new
            ≡ record (entry_of self.old) { variable = replaced_by manner.is_environment_first (entry_of self.old).variable (defined_anew manner.sign manner.origin value.items) }) }
        ensures err { OnErr result (entry_of self.new ≡ entry_of self.old) }
    {
        let there = met(manner.is_environment_first, self.origin);
        if is_passed_over(manner.origin, there) {
            self.origin = there;
            return Ok(());
        }
        let text = text_by(alloc, manner.sign, value)?;
        self.text = text;
        self.flavor = flavor_by(manner.sign);
        self.origin = manner.origin;
        Ok(())
    }

    fn append(&mut self, manner: Manner, value: &[u8]) -> Result<(), AllocError>
        ensures ok { OnOk result
            (entry_of self.new
            ≡ record (entry_of self.old) { variable = replaced_by manner.is_environment_first (entry_of self.old).variable (appended_to (entry_of self.old).variable manner.origin value.now) }) }
        ensures err { OnErr result (entry_of self.new ≡ entry_of self.old) }
    {
        let there = met(manner.is_environment_first, self.origin);
        if is_passed_over(manner.origin, there) {
            self.origin = there;
            return Ok(());
        }
        join(&mut self.text, value)?;
        self.origin = manner.origin;
        Ok(())
    }

    fn redefine(&mut self, alloc: Global, manner: Manner, value: Vec<u8>) -> Result<(), AllocError>
        ensures ok { OnOk result
            (entry_of self.new
            ≡ record (entry_of self.old) { variable = redefined manner.is_environment_first manner.sign manner.origin (entry_of self.old).variable value.items }) }
        ensures err { OnErr result (entry_of self.new ≡ entry_of self.old) }
    {
        match manner.sign {
            Sign::Conditional => Ok(()),
            Sign::Appending => {
                if value.is_empty() {
                    return Ok(());
                }
                self.append(manner, value.as_slice())
            }
            Sign::Recursive | Sign::Simple | Sign::Immediate | Sign::Shell => {
                self.replace(alloc, manner, value)
            }
        }
    }

    /// Takes a definition with this value. Where memory is refused, nothing changes.
    pub(crate) fn define(
        &mut self,
        alloc: Global,
        manner: Manner,
        value: Vec<u8>,
    ) -> Result<(), AllocError>
        ensures ok { OnOk result
            (entry_of self.new ≡ defined manner.is_environment_first manner.modifiers manner.sign manner.origin (Some (entry_of self.old)) value.items) }
        ensures err { OnErr result (entry_of self.new ≡ entry_of self.old) }
    {
        self.redefine(alloc, manner, value)?;
        self.mark(manner.modifiers);
        Ok(())
    }
}

/// What a definition with this value makes of a name that has no variable.
pub(crate) fn defined_anew(
    alloc: Global,
    manner: Manner,
    value: Vec<u8>,
) -> Result<Entry, AllocError>
    ensures { IfOk result (λ e. entry_of e ≡ defined manner.is_environment_first manner.modifiers manner.sign manner.origin None value.items) }
{
    let text = text_by(alloc, manner.sign, value)?;
    let mut entry = Entry::new(text, flavor_by(manner.sign), manner.origin);
    entry.mark(manner.modifiers);
    Ok(entry)
}
