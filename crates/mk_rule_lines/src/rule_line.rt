//! One rule line of a makefile, with its texts expanded and cut into words.
ghost use Rattle.std.specs.Prelude.{◌≡◌, ◌&&◌, ◌||◌, not, option_copied, IfOk};
ghost use Rattle.std.specs.List.{list_any};
ghost use Rattle.mk_lines.specs.Text.{is_empty};
ghost use Rattle.mk_rule_lines.specs.Rules.{is_built_in};
ghost use Rattle.mk_rule_lines.specs.Rules.{told_file};
ghost use Rattle.mk_rule_lines.specs.Rules.{has, has_percent, is_rule, is_pattern_rule, is_phony_list, is_default_rule, makes_targets, is_suffix_list, joins, is_suffix_name, lacks_single, is_double_recipe, is_always, may_be_suffix_rule, is_suffix_target, comes_out, targets_by};

use crate::line_words::LineWords;
use byte_strings::ByteStrings;
use mk_profile::Profile;
use mk_reader::{BUILT_IN, FileName, Recipe, SpecialName};
use std::alloc::{AllocError, Global};

/// A rule line, or the line of a special rule. That of `.PHONY` has the names that it lists as its targets.
pub struct RuleLine {
    /// The file that holds it.
    pub file: FileName,
    /// The number of the line, from 1, in the file that holds it.
    pub line: u32,
    /// The language that it is read in.
    pub profile: Profile,
    /// The special name that stands first, if one does.
    pub special: Option<SpecialName>,
    /// Whether it is a rule with `::`, of which a name may have several with a recipe.
    pub is_double: bool,
    pub targets: LineWords,
    pub prerequisites: LineWords,
    pub recipe: Recipe,
}

impl Drop for RuleLine {
    fn drop(self) {
        let RuleLine {
            file: _,
            line: _,
            profile: _,
            special: _,
            is_double: _,
            targets: _,
            prerequisites: _,
            recipe: _,
        } = self;
    }
}

/// Whether the name is one of these.
pub fn has(names: &ByteStrings, name: &[u8]) -> bool
    ensures { result ≡ has name.now names.now }
{
    names.iter().any(|n| name == n)
}

/// Whether a name has a `%`.
pub fn has_percent(name: &[u8]) -> bool
    ensures { result ≡ has_percent name.now }
{
    name.iter().any(|b| *b == b'%')
}

fn any_percent(names: &LineWords) -> bool
    ensures { result ≡ list_any has_percent names.now }
{
    names.has_byte(b'%')
}

fn joins(suffixes: &ByteStrings, name: &[u8], suffix: &[u8]) -> bool
    ensures { result ≡ joins suffixes.now name.now suffix.now }
{
    match name.strip_prefix(suffix) {
        Some(rest) => has(suffixes, rest),
        None => false,
    }
}

fn joins_any(suffixes: &ByteStrings, name: &[u8]) -> bool
    ensures { result ≡ list_any (joins suffixes.now name.now) suffixes.now }
{
    suffixes.iter().any(|suffix| joins(suffixes, name, suffix))
}

/// Whether the name is a suffix, or two suffixes joined.
fn is_suffix_name(suffixes: &ByteStrings, name: &[u8]) -> bool
    ensures { result ≡ is_suffix_name suffixes.now name.now }
{
    has(suffixes, name) || joins_any(suffixes, name)
}

pub(crate) fn is_phony_list(special: Option<SpecialName>) -> bool
    ensures { result ≡ is_phony_list special }
{
    match special {
        Some(SpecialName::Phony) => true,
        _ => false,
    }
}

pub fn is_default_rule(special: Option<SpecialName>) -> bool
    ensures { result ≡ is_default_rule special }
{
    match special {
        Some(SpecialName::Default) => true,
        _ => false,
    }
}

fn comes_out(wanted: bool, answer: bool) -> bool
    ensures { result ≡ comes_out wanted answer }
{
    if wanted { answer } else { !answer }
}

impl RuleLine {
    /// The file that holds it, as it is told: in the strict profile no place of its recipe is.
    pub fn told_file(&self) -> Option<&[u8]>
        ensures { option_copied result ≡ told_file self.now.profile self.now.file }
    {
        if self.profile.is_wide() {
            Some(self.file.as_slice())
        } else {
            None
        }
    }

    /// Whether it is a line of the rules that are built in.
    pub fn is_built_in(&self) -> bool
        ensures { result ≡ is_built_in self.now }
    {
        self.profile.is_wide() && self.file.as_slice() == BUILT_IN
    }

    /// Whether it is no special rule.
    pub fn is_rule(&self) -> bool
        ensures { result ≡ is_rule self.now }
    {
        self.special.is_none()
    }

    pub fn is_pattern_rule(&self) -> bool
        ensures { result ≡ is_pattern_rule self.now }
    {
        self.is_rule() && any_percent(&self.targets)
    }

    /// Whether it makes its targets by name.
    fn makes_targets(&self) -> bool
        ensures { result ≡ makes_targets self.now }
    {
        is_phony_list(self.special)
            || is_default_rule(self.special)
            || (self.is_rule() && !self.is_pattern_rule())
    }

    pub fn has_recipe(&self) -> bool
        ensures { result ≡ not (is_empty self.now.recipe) }
    {
        !self.recipe.lines().is_empty()
    }

    /// Whether it has no recipe of which a name has just one.
    fn lacks_single(&self) -> bool
        ensures { result ≡ lacks_single self.now }
    {
        self.is_double || !self.has_recipe()
    }

    /// Whether it has a recipe of which a name has just one.
    pub fn has_single_recipe(&self) -> bool
        ensures { result ≡ not (lacks_single self.now) }
    {
        !self.lacks_single()
    }

    /// Whether it is a line with `::` and a recipe.
    pub fn is_double_recipe(&self) -> bool
        ensures { result ≡ is_double_recipe self.now }
    {
        self.is_double && self.has_recipe()
    }

    /// Whether its targets are always made.
    pub(crate) fn is_always(&self) -> bool
        ensures { result ≡ is_always self.now }
    {
        self.is_double_recipe() && self.prerequisites.is_empty()
    }

    /// Whether its targets may be suffix rules: it has no prerequisites, and such a recipe.
    #[inline]
    pub fn may_be_suffix_rule(&self) -> bool
        ensures { result ≡ may_be_suffix_rule self.now }
    {
        self.prerequisites.is_empty() && self.has_single_recipe()
    }

    /// Whether this target of the line is a suffix rule.
    #[inline]
    pub fn is_suffix_target(&self, suffixes: &ByteStrings, name: &[u8]) -> bool
        ensures { result ≡ is_suffix_target suffixes.now self.now name.now }
    {
        self.may_be_suffix_rule() && is_suffix_name(suffixes, name)
    }

    /// Whether it may have targets that are suffix rules, or others.
    #[inline]
    pub fn may_have_targets(&self, suffix_rules: bool) -> bool
        ensures { result ≡ ((not suffix_rules || may_be_suffix_rule self.now) && makes_targets self.now) }
    {
        (!suffix_rules || self.may_be_suffix_rule()) && self.makes_targets()
    }

    /// Whether a target is one of this choice.
    pub fn is_chosen(&self, suffixes: &ByteStrings, suffix_rules: bool, name: &[u8]) -> bool
        ensures { result ≡ comes_out suffix_rules (is_suffix_target suffixes.now self.now name.now) }
    {
        comes_out(suffix_rules, self.is_suffix_target(suffixes, name))
    }

    /// Its targets that are suffix rules, or those that are not.
    #[tactic(auto, using(crate::proofs::TargetLemmas::none_made, crate::proofs::TargetLemmas::all_made))]
    pub fn targets_by(
        &self,
        alloc: Global,
        suffixes: &ByteStrings,
        suffix_rules: bool,
    ) -> Result<ByteStrings, AllocError>
        ensures { IfOk result (λ targets. targets ≡ targets_by suffix_rules suffixes.now self.now) }
    {
        let mut targets = ByteStrings::empty(alloc);
        if !self.may_have_targets(suffix_rules) {
            return Ok(targets);
        }
        for target in self.targets.iter() {
            if self.is_chosen(suffixes, suffix_rules, target) {
                targets.push(target)?;
            }
        }
        Ok(targets)
    }
}
