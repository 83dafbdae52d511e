//! The targets that lines of a special name speak of.
ghost use Rattle.std.specs.Prelude.{◌≡◌, ◌++◌, filter, OnOk};
ghost use Rattle.std.specs.List.{list_any};
ghost use Rattle.mk_names.specs.Names.{all_added};
ghost use Rattle.mk_settings.specs.Marks.{is_of, takes_patterns, left_aside, held_against, is_of_pattern, has_mark};
ghost use Rattle.mk_rule_lines.specs.Rules.{has_percent};
ghost use Rattle.mk_settings.specs.Settled.{nothing_marked, marked_with};

use byte_strings::ByteStrings;
use mk_names::Names;
use mk_profile::Profile;
use mk_reader::SpecialName;
use mk_rule_lines::{RuleLine, before_percent, behind_percent, has_percent, has_slash, parted};
use std::alloc::{AllocError, Global};

/// What a makefile may say of single targets.
#[derive(Clone, Copy)]
pub enum Mark {
    /// `.IGNORE`: the statuses of their recipes don't matter.
    Ignored,
    /// `.SILENT`: the lines of their recipes aren't printed.
    Silent,
    /// `.PRECIOUS`: they aren't removed. Its lines may name patterns in the wide profile.
    Precious,
    /// `.CONSOLE`: their recipes have the terminal alone. Its lines may name patterns.
    Console,
}

/// The targets of a mark: all, or those that are named, and those of the patterns that are.
pub struct Marked {
    pub all: bool,
    pub names: Names,
    pub patterns: ByteStrings,
}

impl Drop for Marked {
    fn drop(self) {
        let Marked {
            all: _,
            names: _,
            patterns: _,
        } = self;
    }
}

fn is_of(mark: Mark, special: Option<SpecialName>) -> bool
    ensures { result ≡ is_of mark special }
{
    match mark {
        Mark::Ignored => matches!(special, Some(SpecialName::Ignore)),
        Mark::Silent => matches!(special, Some(SpecialName::Silent)),
        Mark::Precious => matches!(special, Some(SpecialName::Precious)),
        Mark::Console => matches!(special, Some(SpecialName::Console)),
    }
}

/// Whether the prerequisites of the mark's lines may be patterns.
fn takes_patterns(mark: Mark, profile: Profile) -> bool
    ensures { result ≡ takes_patterns mark profile }
{
    match mark {
        Mark::Precious | Mark::Console => profile.is_wide(),
        Mark::Ignored | Mark::Silent => false,
    }
}

/// The folder of a target that the pattern leaves aside, and what it is held against.
fn held_against<'t>(pattern: &[u8], target: &'t [u8]) -> (&'t [u8], &'t [u8])
    ensures folder { result.0.now ≡ left_aside pattern.now target.now }
    ensures file { result.1.now ≡ held_against pattern.now target.now }
{
    if has_slash(pattern) {
        (&[], target)
    } else {
        parted(target)
    }
}

/// Whether the target is of the pattern.
fn is_of_pattern(target: &[u8], pattern: &[u8]) -> bool
    ensures { result ≡ is_of_pattern target.now pattern.now }
{
    let (folder, file) = held_against(pattern, target);
    let Some(rest) = file.strip_prefix(before_percent(pattern)) else {
        return false;
    };
    match rest.strip_suffix(behind_percent(pattern)) {
        Some(stem) => !folder.is_empty() || !stem.is_empty(),
        None => false,
    }
}

impl Marked {
    /// No targets.
    pub(crate) fn none(alloc: Global) -> Marked
        ensures { result ≡ nothing_marked }
    {
        Marked {
            all: false,
            names: Names::new(alloc),
            patterns: ByteStrings::empty(alloc),
        }
    }

    /// Takes in the names of a line.
    fn add_names(&mut self, alloc: Global, line: &RuleLine) -> Result<(), AllocError>
        ensures all { self.new.all ≡ self.old.all }
        ensures names { OnOk result (self.new.names ≡ all_added self.old.names line.now.prerequisites) }
        ensures patterns { self.new.patterns ≡ self.old.patterns }
    {
        for word in line.prerequisites.iter() {
            let _new = self.names.mention(alloc, word)?;
        }
        Ok(())
    }

    /// Takes in the patterns of a line.
    fn add_patterns(&mut self, line: &RuleLine) -> Result<(), AllocError>
        ensures all { self.new.all ≡ self.old.all }
        ensures names { self.new.names ≡ self.old.names }
        ensures patterns { OnOk result (self.new.patterns ≡ self.old.patterns ++ filter has_percent line.now.prerequisites) }
    {
        for word in line.prerequisites.iter() {
            if has_percent(word) {
                self.patterns.push(word)?;
            }
        }
        Ok(())
    }

    /// Takes in what a line says, where it is of this mark.
    pub(crate) fn take_in(
        &mut self,
        alloc: Global,
        mark: Mark,
        line: &RuleLine,
    ) -> Result<(), AllocError>
        ensures { OnOk result (self.new ≡ marked_with mark self.old line.now) }
    {
        if !is_of(mark, line.special) {
            return Ok(());
        }
        // A line that names no targets speaks of all.
        if line.prerequisites.is_empty() {
            self.all = true;
        }
        if takes_patterns(mark, line.profile) {
            self.add_patterns(line)?;
        }
        self.add_names(alloc, line)
    }

    /// Whether one of the patterns is the target's.
    fn has_pattern_of(&self, target: &[u8]) -> bool
        ensures { result ≡ list_any (is_of_pattern target.now) self.now.patterns }
    {
        self.patterns
            .iter()
            .any(|pattern| is_of_pattern(target, pattern))
    }

    pub fn has(&self, target: &[u8]) -> bool
        ensures { result ≡ has_mark self.now target.now }
    {
        self.all || self.names.number_of(target).is_some() || self.has_pattern_of(target)
    }
}
