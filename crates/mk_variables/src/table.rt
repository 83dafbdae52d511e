//! The table of variables by their names.
ghost use Rattle.std.specs.Prelude.{◌≡◌, ℕ, List, map, None, Some, OnOk, OnErr, option_map};
ghost use Rattle.mk_functions.specs.Shown.{variable_of};
ghost use Rattle.mk_variables.specs.Table.{changed_at, is_private_at, none_listed, table_of, variables_in, with_entry};
ghost use Rattle.mk_variables.specs.Definition.{defined, met_entry, put_at};
ghost use Rattle.mk_variables.specs.Ranks.{met};
ghost use Rattle.mk_variables.specs.Statement.{shared_as, without};
ghost use Rattle.mk_variables.specs.Shown.{entry_in, shown_entry};

use crate::entry::{Entry, Manner, Sharing, defined_anew};
use crate::rank::{is_of_environment, is_passed_over, met};
use indexmap::IndexMap;
use mk_functions::{Definitions, Flavor, Origin, Variable};
use name_keys::{Name, NameRef};
use std::alloc::{AllocError, Global};
use std::marker::Model;

pub(crate) type Entries = IndexMap<Name, Entry>;

/// Takes a definition of a name with this value. Where memory is refused, each name is what it was.
fn define_in(
    entries: &mut Entries,
    alloc: Global,
    manner: Manner,
    name: &[u8],
    value: Vec<u8>,
) -> Result<(), AllocError>
    ensures ok { OnOk result ((n : List ℕ) → entry_in entries.new n
        ≡ changed_at (entry_in entries.old) name.now
        (Some (defined manner.is_environment_first manner.modifiers manner.sign manner.origin (entry_in entries.old name.now) value.items)) n) }
    ensures err { OnErr result ((n : List ℕ) → entry_in entries.new n ≡ entry_in entries.old n) }
{
    if let Some(entry) = entries.get_mut(NameRef { bytes: name }) {
        return entry.define(alloc, manner, value);
    }
    let entry = defined_anew(alloc, manner, value)?;
    let name = Name::from_slice(alloc, name)?;
    entries.insert(name, entry)?;
    Ok(())
}

/// Puts a variable of the tool's own. Where memory is refused, each name is what it was.
fn put_in(
    entries: &mut Entries,
    alloc: Global,
    origin: Origin,
    flavor: Flavor,
    name: &[u8],
    text: &[u8],
) -> Result<(), AllocError>
    ensures ok { OnOk result ((n : List ℕ) → entry_in entries.new n
        ≡ changed_at (entry_in entries.old) name.now (Some (put_at (record { text = text.now; flavor = flavor; origin = origin }) (entry_in entries.old name.now))) n) }
    ensures err { OnErr result ((n : List ℕ) → entry_in entries.new n ≡ entry_in entries.old n) }
{
    let text = Vec::from_slice(alloc, text)?;
    if let Some(entry) = entries.get_mut(NameRef { bytes: name }) {
        entry.put(text, flavor, origin);
        return Ok(());
    }
    let mut entry = Entry::new(text, flavor, origin);
    if is_of_environment(origin) {
        entry.share(Sharing::Exported);
    }
    let name = Name::from_slice(alloc, name)?;
    entries.insert(name, entry)?;
    Ok(())
}

/// Says of a name how it is shared, and defines it where it has no variable. Where memory is refused, each name is what it was.
fn share_in(
    entries: &mut Entries,
    alloc: Global,
    sharing: Sharing,
    name: &[u8],
) -> Result<(), AllocError>
    ensures ok { OnOk result ((n : List ℕ) → entry_in entries.new n
        ≡ changed_at (entry_in entries.old) name.now (Some (shared_as sharing (entry_in entries.old name.now))) n) }
    ensures err { OnErr result ((n : List ℕ) → entry_in entries.new n ≡ entry_in entries.old n) }
{
    if let Some(entry) = entries.get_mut(NameRef { bytes: name }) {
        entry.share(sharing);
        return Ok(());
    }
    let mut entry = Entry::new(Vec::new(alloc), Flavor::Simple, Origin::File);
    entry.share(sharing);
    let name = Name::from_slice(alloc, name)?;
    entries.insert(name, entry)?;
    Ok(())
}

fn variable_in<'a>(entries: &'a Entries, name: &[u8]) -> Option<Variable<'a>>
    ensures { option_map variable_of result ≡ option_map (λ e. e.variable) (entry_in entries.now name.now) }
{
    match entries.get(NameRef { bytes: name }) {
        Some(entry) => Some(entry.variable()),
        None => None,
    }
}

fn is_private_in(entries: &Entries, name: &[u8]) -> bool
    ensures { result ≡ is_private_at (entry_in entries.now name.now) }
{
    match entries.get(NameRef { bytes: name }) {
        Some(entry) => entry.is_private(),
        None => false,
    }
}

/// The origin of a name's variable where a definition meets it.
fn met_origin(entries: &Entries, is_environment_first: bool, name: &[u8]) -> Option<Origin>
    ensures { result ≡ option_map (λ e. met is_environment_first e.variable.origin) (entry_in entries.now name.now) }
{
    match entries.get(NameRef { bytes: name }) {
        Some(entry) => Some(met(is_environment_first, entry.origin())),
        None => None,
    }
}

fn meet_in(entries: &mut Entries, is_environment_first: bool, name: &[u8])
    ensures { (n : List ℕ) → entry_in entries.new n
        ≡ changed_at (entry_in entries.old) name.now (option_map (met_entry is_environment_first) (entry_in entries.old name.now)) n }
{
    if let Some(entry) = entries.get_mut(NameRef { bytes: name }) {
        entry.meet(is_environment_first);
    }
}

fn remove_in(entries: &mut Entries, name: &[u8])
    ensures { (n : List ℕ) → entry_in entries.new n ≡ changed_at (entry_in entries.old) name.now None n }
{
    let _ = entries.swap_remove(NameRef { bytes: name });
}

/// The variables of a makefile. Contracts see each name with what is known of it.
pub struct Table {
    entries: Entries,
    exports_all: bool,
    is_environment_first: bool,
}

impl Model for Table {
    ghost use Rattle.std.specs.Prelude.{map};
    ghost use Rattle.mk_variables.specs.Table.{Listed};
    ghost use Rattle.mk_variables.specs.Shown.{shown_entry};

    ghost Value = { Listed };

    ghost view = { λ t. record { entries = map shown_entry t.entries.entries; exports_all = t.exports_all; is_environment_first = t.is_environment_first } };
}

impl Drop for Table {
    fn drop(self) {
        let Table {
            entries: _,
            exports_all: _,
            is_environment_first: _,
        } = self;
    }
}

impl Definitions for Table {
    ghost variables = { λ t. variables_in (table_of t) };

    fn variable(&self, name: &[u8]) -> Option<Variable<'_>> {
        variable_in(&self.entries, name)
    }
}

impl Table {
    /// No variables. Those of the environment count before those of makefiles where this is asked for, as by `-e`.
    pub fn new(alloc: Global, is_environment_first: bool) -> Table
        ensures { result ≡ none_listed is_environment_first }
    {
        Table {
            entries: IndexMap::new(alloc),
            exports_all: false,
            is_environment_first,
        }
    }

    /// Puts a variable of the tool's own in place of what a name had: one that is built in, or of the environment.
    ///
    /// Where memory is refused, each name is what it was.
    pub fn put(
        &mut self,
        alloc: Global,
        origin: Origin,
        flavor: Flavor,
        name: &[u8],
        text: &[u8],
    ) -> Result<(), AllocError>
        ensures ok { OnOk result
            (table_of self.new
            ≡ with_entry (table_of self.old) name.now (Some (put_at (record { text = text.now; flavor = flavor; origin = origin }) ((table_of self.old).entry name.now)))) }
        ensures err { OnErr result (table_of self.new ≡ table_of self.old) }
    {
        put_in(&mut self.entries, alloc, origin, flavor, name, text)
    }

    /// Takes a definition of a name with this value. Where memory is refused, each name is what it was.
    pub(crate) fn define_value(
        &mut self,
        alloc: Global,
        manner: Manner,
        name: &[u8],
        value: Vec<u8>,
    ) -> Result<(), AllocError>
        ensures ok { OnOk result
            (table_of self.new
            ≡ with_entry (table_of self.old) name.now
            (Some (defined manner.is_environment_first manner.modifiers manner.sign manner.origin ((table_of self.old).entry name.now) value.items))) }
        ensures err { OnErr result (table_of self.new ≡ table_of self.old) }
    {
        define_in(&mut self.entries, alloc, manner, name, value)
    }

    pub(crate) fn share_name(
        &mut self,
        alloc: Global,
        sharing: Sharing,
        name: &[u8],
    ) -> Result<(), AllocError>
        ensures ok { OnOk result
            (table_of self.new ≡ with_entry (table_of self.old) name.now (Some (shared_as sharing ((table_of self.old).entry name.now)))) }
        ensures err { OnErr result (table_of self.new ≡ table_of self.old) }
    {
        share_in(&mut self.entries, alloc, sharing, name)
    }

    /// Whether a name's variable is hidden from recipes.
    pub fn is_private(&self, name: &[u8]) -> bool
        ensures { result ≡ is_private_at ((table_of self.now).entry name.now) }
    {
        is_private_in(&self.entries, name)
    }

    pub(crate) fn entries(&self) -> &Entries
        ensures { map shown_entry result.now.entries ≡ self.now.entries }
    {
        &self.entries
    }

    pub(crate) fn exports_all(&self) -> bool
        ensures { result ≡ self.now.exports_all }
    {
        self.exports_all
    }

    /// Says whether variables are exported of which nothing is said, as `.EXPORT_ALL_VARIABLES` does.
    pub fn set_exports_all(&mut self, exports_all: bool)
        ensures { table_of self.new ≡ record (table_of self.old) { exports_all = exports_all } }
    {
        self.exports_all = exports_all;
    }

    pub(crate) fn is_environment_first(&self) -> bool
        ensures { result ≡ (table_of self.now).is_environment_first }
    {
        self.is_environment_first
    }

    /// Takes a name's variable away, unless it is of a stronger origin.
    pub(crate) fn remove(&mut self, origin: Origin, name: &[u8])
        ensures { table_of self.new ≡ without (table_of self.old) origin name.now }
    {
        let is_first = self.is_environment_first;
        match met_origin(&self.entries, is_first, name) {
            None => {}
            Some(there) => {
                if is_passed_over(origin, there) {
                    meet_in(&mut self.entries, is_first, name);
                } else {
                    remove_in(&mut self.entries, name);
                }
            }
        }
    }
}
