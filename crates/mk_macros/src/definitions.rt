// What is defined for each name, by rank.
ghost use Rattle.std.specs.Prelude.{◌≡◌, ◌≢◌, ℕ, List, [], None, Some, OnOk, OnErr, IfOk, IfSome, is_some, option_map, option_copied, if◌then◌else◌};
ghost use Rattle.mk_profile.specs.Profile.{is_wide};
ghost use Rattle.mk_macros.specs.Ranks.{defined_by, none_listed, no_ranks, in_force, with_rank, base_of, appended, redefined, with_definition, with_mark, or_else};
ghost use Rattle.mk_macros.specs.Shown.{ranks_of, texts_at};

use indexmap::IndexMap;
use mk_profile::Profile;
use std::alloc::{AllocError, Global};
use std::marker::Model;

/// Where a definition stands. An earlier rank hides a later one.
#[derive(Clone, Copy)]
pub enum Rank {
    CommandLine,
    Makefile,
    Environment,
    /// The tool's own.
    Tool,
}

/// What is defined for one name.
pub(crate) struct Definition {
    command_line: Option<Vec<u8>>,
    makefile: Option<Vec<u8>>,
    environment: Option<Vec<u8>>,
    tool: Option<Vec<u8>>,
    /// Whether what a line appends to the makefile's text is expanded where it stands.
    is_fixed: bool,
}

impl Drop for Definition {
    fn drop(self) {
        let Definition {
            command_line: _,
            makefile: _,
            environment: _,
            tool: _,
            is_fixed: _,
        } = self;
    }
}

fn text_of(text: &Option<Vec<u8>>) -> Option<&[u8]>
    ensures { option_copied result ≡ option_map (λ v. v.items) text.now }
{
    match text {
        Some(text) => Some(text.as_slice()),
        None => None,
    }
}

/// Appends a text behind a space, or alone where nothing stands before it.
fn append_text(text: &mut Vec<u8>, value: &[u8]) -> Result<(), AllocError>
    ensures ok { OnOk result (text.new.items ≡ appended (Some text.old.items) value.now) }
    ensures err { OnErr result (text.new.items ≡ text.old.items) }
{
    if text.is_empty() {
        return text.extend_from_slice(value);
    }
    text.reserve(value.len() + 1)?;
    text.push(b' ').unwrap();
    text.extend_from_slice(value).unwrap();
    Ok(())
}

impl Definition {
    fn new() -> Definition
        ensures { ranks_of result ≡ no_ranks }
    {
        Definition {
            command_line: None,
            makefile: None,
            environment: None,
            tool: None,
            is_fixed: false,
        }
    }

    /// The text in force.
    fn text(&self) -> Option<&[u8]>
        ensures { option_copied result ≡ in_force (ranks_of self.now) }
    {
        if let Some(text) = &self.command_line {
            return Some(text.as_slice());
        }
        if let Some(text) = &self.makefile {
            return Some(text.as_slice());
        }
        if let Some(text) = &self.environment {
            return Some(text.as_slice());
        }
        text_of(&self.tool)
    }

    fn put(&mut self, rank: Rank, text: Vec<u8>)
        ensures { ranks_of self.new ≡ with_rank (ranks_of self.old) rank text.items }
    {
        match rank {
            Rank::CommandLine => self.command_line = Some(text),
            Rank::Makefile => self.makefile = Some(text),
            Rank::Environment => self.environment = Some(text),
            Rank::Tool => self.tool = Some(text),
        }
    }
}

/// Appends to the text at one rank, or, where there is none, to the text that it inherits.
fn append_rank(
    alloc: Global,
    text: &mut Option<Vec<u8>>,
    inherited: Option<&[u8]>,
    value: &[u8],
) -> Result<(), AllocError>
    ensures ok { OnOk result
        (option_map (λ v. v.items) text.new
        ≡ Some (appended (or_else (option_map (λ v. v.items) text.old) (option_copied inherited.entry)) value.now)) }
    ensures err { OnErr result (option_map (λ v. v.items) text.new ≡ option_map (λ v. v.items) text.old) }
{
    if let Some(text) = text {
        return append_text(text, value);
    }
    let mut joined = Vec::from_slice(alloc, inherited.unwrap_or(&[]))?;
    append_text(&mut joined, value)?;
    *text = Some(joined);
    Ok(())
}

/// What a makefile's appending definition adds to where no makefile has defined the name before.
fn inherited<'a>(
    profile: Profile,
    environment: &'a Option<Vec<u8>>,
    tool: &'a Option<Vec<u8>>,
) -> Option<&'a [u8]>
    ensures { option_copied result
        ≡ or_else
        (option_map (λ v. v.items) environment.now)
        (if is_wide profile then option_map (λ v. v.items) tool.now else None) }
{
    if environment.is_some() || !profile.is_wide() {
        return text_of(environment);
    }
    text_of(tool)
}

impl Definition {
    fn append(
        &mut self,
        alloc: Global,
        profile: Profile,
        rank: Rank,
        value: &[u8],
    ) -> Result<(), AllocError>
        ensures ok { OnOk result
            (ranks_of self.new
            ≡ with_rank (ranks_of self.old) rank (appended (base_of profile (ranks_of self.old) rank) value.now)) }
        ensures err { OnErr result (ranks_of self.new ≡ ranks_of self.old) }
    {
        match rank {
            Rank::CommandLine => append_rank(alloc, &mut self.command_line, None, value),
            Rank::Makefile => {
                let inherited = inherited(profile, &self.environment, &self.tool);
                append_rank(alloc, &mut self.makefile, inherited, value)
            }
            Rank::Environment => append_rank(alloc, &mut self.environment, None, value),
            Rank::Tool => append_rank(alloc, &mut self.tool, None, value),
        }
    }

    fn define(
        &mut self,
        alloc: Global,
        profile: Profile,
        rank: Rank,
        value: &[u8],
        append: bool,
    ) -> Result<(), AllocError>
        ensures ok { OnOk result (ranks_of self.new ≡ redefined profile (ranks_of self.old) rank value.now append) }
        ensures err { OnErr result (ranks_of self.new ≡ ranks_of self.old) }
    {
        if append {
            return self.append(alloc, profile, rank, value);
        }
        let text = Vec::from_slice(alloc, value)?;
        self.put(rank, text);
        Ok(())
    }
}

/// Defines a name in the map. At an error each name has what it had.
fn define_in(
    definitions: &mut IndexMap<Vec<u8>, Definition>,
    alloc: Global,
    profile: Profile,
    rank: Rank,
    name: &[u8],
    value: &[u8],
    append: bool,
) -> Result<(), AllocError>
    ensures ok { OnOk result
        (texts_at definitions.new name.now ≡ redefined profile (texts_at definitions.old name.now) rank value.now append) }
    ensures others { (n : List ℕ) → n ≢ name.now → texts_at definitions.new n ≡ texts_at definitions.old n }
    ensures err { OnErr result (texts_at definitions.new name.now ≡ texts_at definitions.old name.now) }
{
    if let Some(definition) = definitions.get_mut(name) {
        return definition.define(alloc, profile, rank, value, append);
    }
    let mut definition = Definition::new();
    definition.define(alloc, profile, rank, value, append)?;
    definitions.insert(Vec::from_slice(alloc, name)?, definition)?;
    Ok(())
}

/// Says of a name in the map whether its text is fixed. At an error each name has what it had.
fn mark_in(
    definitions: &mut IndexMap<Vec<u8>, Definition>,
    alloc: Global,
    name: &[u8],
    is_fixed: bool,
) -> Result<(), AllocError>
    ensures ok { OnOk result
        (texts_at definitions.new name.now ≡ record (texts_at definitions.old name.now) { is_fixed = is_fixed }) }
    ensures others { (n : List ℕ) → n ≢ name.now → texts_at definitions.new n ≡ texts_at definitions.old n }
    ensures err { OnErr result (texts_at definitions.new name.now ≡ texts_at definitions.old name.now) }
{
    if let Some(definition) = definitions.get_mut(name) {
        definition.is_fixed = is_fixed;
        return Ok(());
    }
    let mut definition = Definition::new();
    definition.is_fixed = is_fixed;
    definitions.insert(Vec::from_slice(alloc, name)?, definition)?;
    Ok(())
}

fn definition_in<'a>(
    definitions: &'a IndexMap<Vec<u8>, Definition>,
    name: &[u8],
) -> Option<(&'a [u8], &'a [u8])>
    ensures text { option_map (λ found. found.1.now) result ≡ in_force (texts_at definitions.now name.now) }
    ensures name { IfSome result (λ found. found.0.now ≡ name.now) }
{
    let (key, definition) = definitions.get_key_value(name)?;
    Some((key.as_slice(), definition.text()?))
}

fn is_fixed_in(definitions: &IndexMap<Vec<u8>, Definition>, name: &[u8]) -> bool
    ensures { result ≡ (texts_at definitions.now name.now).is_fixed }
{
    match definitions.get(name) {
        Some(definition) => definition.is_fixed,
        None => false,
    }
}

/// The definitions that texts are expanded with, and the language of the texts. Contracts see each name with its text at each
/// rank.
pub struct Macros {
    profile: Profile,
    definitions: IndexMap<Vec<u8>, Definition>,
}

impl Model for Macros {
    ghost use Rattle.std.specs.Prelude.{map};
    ghost use Rattle.mk_macros.specs.Ranks.{Listed};

    ghost Value = { Listed };

    ghost use Rattle.mk_macros.specs.Shown.{shown_definition};

    ghost view = { λ m. record { language = m.profile; texts = map shown_definition m.definitions.entries } };
}

impl Drop for Macros {
    fn drop(self) {
        let Macros {
            profile: _,
            definitions: _,
        } = self;
    }
}

impl Macros {
    /// No definitions, for texts in this language. It takes no memory.
    pub fn new(alloc: Global, profile: Profile) -> Macros
        ensures { result ≡ none_listed profile }
    {
        Macros {
            profile,
            definitions: IndexMap::new(alloc),
        }
    }

    /// The language that texts are expanded in.
    pub fn profile(&self) -> Profile
        ensures { result ≡ (defined_by self.now).language }
    {
        self.profile
    }

    /// Defines a name at a rank, in place of what the rank had for it, or at its end where `append` is set. Only
    /// makefiles append: an appending definition there adds to what the environment has, where no makefile has
    /// defined the name before, and in the wide profile, where that has nothing either, to the tool's own.
    ///
    /// Where memory is refused, every name has what it had.
    pub fn define(
        &mut self,
        alloc: Global,
        rank: Rank,
        name: &[u8],
        value: &[u8],
        append: bool,
    ) -> Result<(), AllocError>
        ensures ok { OnOk result
            (defined_by self.new ≡ with_definition (defined_by self.old) rank name.now value.now append) }
        ensures err { OnErr result (defined_by self.new ≡ defined_by self.old) }
    {
        let profile = self.profile;
        define_in(
            &mut self.definitions,
            alloc,
            profile,
            rank,
            name,
            value,
            append,
        )
    }

    /// Says of a name whether what a line of the makefile appends to its text is expanded where it stands.
    ///
    /// Where memory is refused, every name has what it had.
    pub fn mark(&mut self, alloc: Global, name: &[u8], is_fixed: bool) -> Result<(), AllocError>
        ensures ok { OnOk result (defined_by self.new ≡ with_mark (defined_by self.old) name.now is_fixed) }
        ensures err { OnErr result (defined_by self.new ≡ defined_by self.old) }
    {
        mark_in(&mut self.definitions, alloc, name, is_fixed)
    }

    /// Whether what is appended to a name's text is expanded where it stands.
    pub fn is_fixed(&self, name: &[u8]) -> bool
        ensures { result ≡ ((defined_by self.now).ranks name.now).is_fixed }
    {
        is_fixed_in(&self.definitions, name)
    }

    /// Whether a name has a text, at any rank.
    pub fn is_defined(&self, name: &[u8]) -> bool
        ensures { result ≡ is_some (in_force ((defined_by self.now).ranks name.now)) }
    {
        self.definition(name).is_some()
    }

    /// The text in force for a name, behind the name as it is kept here.
    pub(crate) fn definition<'a>(&'a self, name: &[u8]) -> Option<(&'a [u8], &'a [u8])>
        ensures text { option_map (λ found. found.1.now) result ≡ in_force ((defined_by self.now).ranks name.now) }
        ensures name { IfSome result (λ found. found.0.now ≡ name.now) }
    {
        definition_in(&self.definitions, name)
    }
}
