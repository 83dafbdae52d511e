//! What the statements of a file give to be noted.
ghost use Rattle.std.specs.Prelude.{◌≡◌, ◌++◌, OnOk, IfOk};
ghost use Rattle.std.specs.List.{flat_map, list_any};
ghost use Rattle.byte_strings.specs.Blanks.{is_blank};
ghost use Rattle.mk_notes.specs.Notes.{all_noted};
ghost use Rattle.mk_notes.specs.References.{listed};
ghost use Rattle.mk_notes.specs.Statements.{recipe_texts, rule_texts, item_texts, texts_noted, is_suffix_rule, begins_with_prerequisite, is_plain_target, target_of, macro_of, target_noted, statement_noted, statements_noted, special_suffixes, suffixes_of, statement_suffixes, automatic_in, mark_of, marks, marks_of, statement_marks, counts};

use crate::names::{is_macro_elsewhere, is_named_by, is_suffix_name, is_target};
use crate::note::{Note, Subject};
use crate::notes::Notes;
use crate::references::is_automatic;
use byte_strings::{ByteString, first_word, is_blank};
use mk_lines::ends_with;
use mk_macros::Rank;
use mk_profile::Profile;
use mk_reader::{Definition, Item, RecipeLine, Rule, Special, SpecialName, Statement};
use std::alloc::{AllocError, Global};

/// A rule as suffix rules are written.
fn is_suffix_rule(rule: &Rule) -> bool
    ensures { result ≡ is_suffix_rule rule.now }
{
    if rule.recipe.lines().is_empty() {
        return false;
    }
    rule.prerequisites.as_slice().is_empty() && is_suffix_name(rule.targets.as_slice())
}

/// Whether the first word of a text is a prerequisite, whatever references come to.
fn begins_with_prerequisite(text: &[u8]) -> bool
    ensures { result ≡ begins_with_prerequisite text.now }
{
    let word = first_word(text);
    !word.is_empty() && !word.contains(&b'$') && word != b"|".as_slice()
}

/// A rule that would be written as a suffix rule, if it had no prerequisites.
fn is_plain_target(rule: &Rule) -> bool
    ensures { result ≡ is_plain_target rule.now }
{
    if rule.recipe.lines().is_empty() {
        return false;
    }
    begins_with_prerequisite(rule.prerequisites.as_slice())
        && is_suffix_name(rule.targets.as_slice())
}

/// What the target of a rule is noted as.
fn target_of(alloc: Global, profile: Profile, rule: &Rule) -> Result<Option<Subject>, AllocError>
    ensures { IfOk result (λ found. found ≡ target_of profile rule.now) }
{
    let name = rule.targets.as_slice();
    if is_target(name) {
        return Ok(Some(Subject::Target(ByteString::from_slice(alloc, name)?)));
    }
    if !profile.is_wide() && ends_with(name, b'&') {
        return Ok(Some(Subject::Target(ByteString::from_slice(alloc, b"&")?)));
    }
    if !profile.is_wide() && is_suffix_rule(rule) {
        return Ok(Some(Subject::SuffixRule(ByteString::from_slice(alloc, name)?)));
    }
    if profile.is_wide() && is_plain_target(rule) {
        return Ok(Some(Subject::PlainTarget(ByteString::from_slice(alloc, name)?)));
    }
    Ok(None)
}

/// What the name of a macro that is defined is noted as.
fn macro_of(alloc: Global, profile: Profile, name: &[u8]) -> Result<Option<Subject>, AllocError>
    ensures { IfOk result (λ found. found ≡ macro_of profile name.now) }
{
    if is_macro_elsewhere(profile, name) {
        return Ok(Some(Subject::Target(ByteString::from_slice(alloc, name)?)));
    }
    Ok(None)
}

/// The byte of an automatic macro that would be empty, if it is one.
fn automatic_in(profile: Profile, name: &[u8]) -> Option<u8>
    ensures { result ≡ automatic_in profile name.now }
{
    let (byte, rest) = name.split_first()?;
    if rest.is_empty() && is_automatic(profile, *byte) {
        Some(*byte)
    } else {
        None
    }
}

fn has_blank(name: &[u8]) -> bool
    ensures { result ≡ list_any is_blank name.now }
{
    name.iter().any(|byte| is_blank(*byte))
}

/// What is kept of a name that is defined, if it is one of those that would be empty.
fn mark_of(profile: Profile, name: &[u8]) -> Option<u8>
    ensures { result ≡ mark_of profile name.now }
{
    if has_blank(name) {
        Some(b' ')
    } else {
        automatic_in(profile, name)
    }
}

impl Notes {
    /// Takes in that this name is defined.
    fn define(&mut self, profile: Profile, name: &[u8]) -> Result<(), AllocError>
        ensures found { self.new.found ≡ self.old.found }
        ensures suffixes { self.new.suffixes ≡ self.old.suffixes }
        ensures defined { OnOk result (self.new.defined.items ≡ self.old.defined.items ++ marks profile name.now) }
    {
        if profile.is_wide() {
            self.names.push(name)?;
        }
        match mark_of(profile, name) {
            Some(mark) => {
                self.defined.push(mark)?;
                Ok(())
            }
            None => Ok(()),
        }
    }

    /// Takes in that this name has this text before a makefile is read.
    pub fn give(
        &mut self,
        profile: Profile,
        rank: Rank,
        name: &[u8],
        text: &[u8],
    ) -> Result<(), AllocError>
        ensures found { self.new.found ≡ self.old.found }
        ensures suffixes { self.new.suffixes ≡ self.old.suffixes }
        ensures defined { OnOk result (self.new.defined.items ≡ self.old.defined.items ++ marks profile name.now) }
    {
        self.define(profile, name)?;
        if profile.is_wide() {
            return Ok(());
        }
        self.fronts.define(rank, name, text, false)
    }

    fn see_recipe(
        &mut self,
        alloc: Global,
        profile: Profile,
        file: &[u8],
        targets: &[u8],
        lines: &[RecipeLine],
    ) -> Result<(), AllocError>
        ensures found { OnOk result (self.new.found.items ≡ texts_noted profile file.now (recipe_texts lines.now) self.old.found.items) }
        ensures suffixes { self.new.suffixes ≡ self.old.suffixes }
        ensures defined { self.new.defined ≡ self.old.defined }
    {
        for raw in lines {
            self.note_text(alloc, profile, file, raw.line, raw.text.as_slice())?;
            self.see_leading(profile, file, raw.line, targets, raw.text.as_slice())?;
            self.see_command(alloc, profile, file, raw.line, raw.text.as_slice())?;
        }
        Ok(())
    }

    fn see_rule(
        &mut self,
        alloc: Global,
        profile: Profile,
        file: &[u8],
        rule: &Rule,
    ) -> Result<(), AllocError>
        ensures found { OnOk result (self.new.found.items ≡ texts_noted profile file.now (rule_texts rule.now) self.old.found.items) }
        ensures suffixes { self.new.suffixes ≡ self.old.suffixes }
        ensures defined { self.new.defined ≡ self.old.defined }
    {
        self.note_text(alloc, profile, file, rule.line, rule.targets.as_slice())?;
        self.note_text(
            alloc,
            profile,
            file,
            rule.line,
            rule.prerequisites.as_slice(),
        )?;
        let targets = rule.targets.as_slice();
        self.see_recipe(alloc, profile, file, targets, rule.recipe.lines())
    }

    fn see_target(
        &mut self,
        alloc: Global,
        profile: Profile,
        file: &[u8],
        rule: &Rule,
    ) -> Result<(), AllocError>
        ensures found { OnOk result (self.new.found.items
            ≡ all_noted file.now rule.now.line (listed (target_of profile rule.now)) self.old.found.items) }
        ensures suffixes { self.new.suffixes ≡ self.old.suffixes }
        ensures defined { self.new.defined ≡ self.old.defined }
    {
        match target_of(alloc, profile, rule)? {
            Some(subject) => self.note(alloc, file, rule.line, subject),
            None => Ok(()),
        }
    }

    fn see_macro(
        &mut self,
        alloc: Global,
        profile: Profile,
        file: &[u8],
        definition: &Definition,
    ) -> Result<(), AllocError>
        ensures found { OnOk result (self.new.found.items
            ≡ all_noted file.now definition.now.line (listed (macro_of profile definition.now.name)) self.old.found.items) }
        ensures suffixes { self.new.suffixes ≡ self.old.suffixes }
        ensures defined { self.new.defined ≡ self.old.defined }
    {
        match macro_of(alloc, profile, definition.name.as_slice())? {
            Some(subject) => self.note(alloc, file, definition.line, subject),
            None => Ok(()),
        }
    }

    fn see_special(&mut self, special: &Special) -> Result<(), AllocError>
        ensures found { self.new.found ≡ self.old.found }
        ensures suffixes { OnOk result (self.new.suffixes.items
            ≡ self.old.suffixes.items ++ special_suffixes special.now.name special.now.rule) }
        ensures defined { self.new.defined ≡ self.old.defined }
    {
        match special.name {
            SpecialName::Suffixes => {
                self.suffixes
                    .extend_from_slice(special.rule.prerequisites.as_slice())?;
                self.suffixes.push(b' ')?;
                Ok(())
            }
            _ => Ok(()),
        }
    }

    fn see_texts(
        &mut self,
        alloc: Global,
        profile: Profile,
        file: &[u8],
        item: &Item,
    ) -> Result<(), AllocError>
        ensures found { OnOk result (self.new.found.items ≡ texts_noted profile file.now (item_texts item.now) self.old.found.items) }
        ensures suffixes { self.new.suffixes ≡ self.old.suffixes }
        ensures defined { self.new.defined ≡ self.old.defined }
    {
        match item {
            Item::Definition(definition) => {
                let text = definition.value.as_slice();
                self.see_command(alloc, profile, file, definition.line, text)?;
                self.note_text(alloc, profile, file, definition.line, text)
            }
            Item::Rule(rule) => self.see_rule(alloc, profile, file, rule),
            Item::Special(special) => self.see_rule(alloc, profile, file, &special.rule),
        }
    }

    fn see_item(
        &mut self,
        alloc: Global,
        profile: Profile,
        file: &[u8],
        item: &Item,
    ) -> Result<(), AllocError>
        ensures found { OnOk result (self.new.found.items
            ≡ texts_noted profile file.now (item_texts item.now) (target_noted profile file.now item.now self.old.found.items)) }
        ensures suffixes { OnOk result (self.new.suffixes.items ≡ self.old.suffixes.items ++ suffixes_of item.now) }
        ensures defined { OnOk result (self.new.defined.items ≡ self.old.defined.items ++ marks_of profile item.now) }
    {
        match item {
            Item::Definition(definition) => {
                self.define(profile, definition.name.as_slice())?;
                self.see_macro(alloc, profile, file, definition)?;
            }
            Item::Rule(rule) => self.see_target(alloc, profile, file, rule)?,
            Item::Special(special) => self.see_special(special)?,
        }
        self.see_texts(alloc, profile, file, item)
    }

    fn see_statement(
        &mut self,
        alloc: Global,
        profile: Profile,
        file: &[u8],
        statement: &Statement,
    ) -> Result<(), AllocError>
        ensures found { OnOk result (self.new.found.items ≡ statement_noted profile file.now statement.now self.old.found.items) }
        ensures suffixes { OnOk result (self.new.suffixes.items ≡ self.old.suffixes.items ++ statement_suffixes statement.now) }
        ensures defined { OnOk result (self.new.defined.items ≡ self.old.defined.items ++ statement_marks profile statement.now) }
    {
        match statement {
            Statement::Item(item) => self.see_item(alloc, profile, file, item),
            Statement::Definition(line) => {
                self.define(profile, line.definition.name.as_slice())?;
                self.see_macro(alloc, profile, file, &line.definition)?;
                let text = line.definition.value.as_slice();
                self.see_command(alloc, profile, file, line.definition.line, text)?;
                self.note_text(alloc, profile, file, line.definition.line, text)
            }
            Statement::Include(include) => {
                self.note_text(alloc, profile, file, include.line, include.names.as_slice())
            }
            Statement::Refused(_) => Ok(()),
        }
    }

    /// Takes in the statements of a file, as they are read. Without memory some of their notes may be missing.
    pub fn see(
        &mut self,
        alloc: Global,
        profile: Profile,
        file: &[u8],
        statements: &[Statement],
    ) -> Result<(), AllocError>
        ensures found { OnOk result (self.new.found.items ≡ statements_noted profile file.now statements.now self.old.found.items) }
        ensures suffixes { OnOk result (self.new.suffixes.items ≡ self.old.suffixes.items ++ flat_map statement_suffixes statements.now) }
        ensures defined { OnOk result (self.new.defined.items ≡ self.old.defined.items ++ flat_map (statement_marks profile) statements.now) }
    {
        for statement in statements {
            self.see_statement(alloc, profile, file, statement)?;
        }
        if profile.is_wide() {
            return Ok(());
        }
        self.fronts.see(statements)
    }

    /// Whether a note is to be told once all makefiles are read: one on a suffix rule isn't where `.SUFFIXES` names its suffixes, and
    /// one on a reference isn't where what it refers to is defined.
    pub fn counts(&self, note: &Note) -> bool
        ensures { result ≡ counts self.now.suffixes.items self.now.defined.items note.now.subject }
    {
        match &note.subject {
            Subject::Function(_) => !self.defined.contains(&b' '),
            Subject::Automatic(byte) => !self.defined.contains(byte),
            Subject::SuffixRule(name) => !is_named_by(&self.suffixes, name.as_slice()),
            Subject::PlainTarget(_)
            | Subject::Target(_)
            | Subject::Leading(_, _)
            | Subject::BuiltIn(_)
            | Subject::Undefined(_) => true,
        }
    }
}
