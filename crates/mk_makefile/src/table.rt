//! Which rule lines a name is a target of.
ghost use Rattle.std.specs.Prelude.{◌≡◌, ◌≢◌, ◌∷◌, ℕ, List, [], None, OnOk, IfOk, IfErr, if◌then◌else◌, bytes_eq, MatchOption, is_some, ◌&&◌, not};
ghost use Rattle.mk_makefile.specs.Named.{shown_lines, shown_target, nothing_named};
ghost use Rattle.mk_makefile.specs.Table.{is_last, with_line, with_target, named_at, AddsLine, IsAddFault, IsTable, IsTableFault, is_named};
ghost use Rattle.mk_rule_lines.specs.Rules.{lacks_single, targets_by};

use byte_strings::{ByteString, ByteStrings};
use mk_names::Names;
use mk_rule_lines::{RuleFault, RuleLine};
use std::alloc::{AllocError, Global};
use std::marker::Model;
use std::slice;

/// The lines that name a target, by their numbers, from 0. A target mostly has one line, which takes no memory of its own.
#[derive(Drop)]
enum Target {
    /// One line, which has no recipe, or is one with `::`.
    WithoutRecipe(usize),
    /// One line, which has the recipe.
    WithRecipe(usize),
    Many(Box<ManyLines>),
}

/// Several lines that name a target.
#[derive(Drop)]
struct ManyLines {
    numbers: Vec<usize>,
    /// The number of the line that has the recipe, if it isn't one with `::`.
    recipe: Option<usize>,
}

/// The targets of a makefile's rule lines, each at its name's number.
///
/// Prerequisites and recipes stay in their lines, so that a line with fifty thousand targets is kept once.
pub struct TargetTable {
    names: Names,
    targets: Vec<Target>,
}

impl Model for TargetTable {
    ghost use Rattle.std.specs.Prelude.{◌≡◌, length, map};
    ghost use Rattle.std.specs.List.{IsDistinct};
    ghost use Rattle.std.specs.Str.{bytes_eq};
    ghost use Rattle.mk_makefile.specs.Named.{NumberedTargets, shown_target};

    ghost Value = { NumberedTargets };

    ghost view = { λ t. record { names = t.names; named = map shown_target t.targets.items } };

    ghost invariant = { λ t. IsDistinct bytes_eq t.names × (length t.names ≡ length t.targets.items) };
}

impl Drop for TargetTable {
    fn drop(self) {
        let TargetTable {
            names: _,
            targets: _,
        } = self;
    }
}

fn is_last(number: usize, numbers: &[usize]) -> bool
    ensures { result ≡ is_last number numbers.now }
{
    match numbers.last() {
        Some(last) => *last == number,
        None => false,
    }
}

/// How many bytes stand before the colons of these lines.
fn target_bytes(lines: &[RuleLine]) -> usize {
    let mut bytes: usize = 0;
    for line in lines {
        bytes = bytes.saturating_add(line.targets.text_len());
    }
    bytes
}

impl ManyLines {
    /// Takes in that a line names the target.
    fn add(&mut self, line: usize, has_recipe: bool) -> Result<(), AllocError>
        ensures { OnOk result (shown_lines self.new ≡ with_target line has_recipe (shown_lines self.old)) }
    {
        if !is_last(line, &self.numbers) {
            self.numbers.push(line)?;
        }
        if has_recipe {
            self.recipe = Some(line);
        }
        Ok(())
    }
}

/// A line of a target, and another one behind it.
fn two_lines(
    alloc: Global,
    first: usize,
    recipe: Option<usize>,
    line: usize,
    has_recipe: bool,
) -> Result<Target, AllocError>
    requires { first ≢ line }
    ensures { IfOk result (λ target. shown_target target ≡ with_target line has_recipe (record { lines = first ∷ []; recipe = recipe })) }
{
    let lines = ManyLines {
        numbers: vec![in alloc; first, line]?,
        recipe: if has_recipe { Some(line) } else { recipe },
    };
    Ok(Target::Many(Box::new(alloc, lines)?))
}

impl Target {
    /// What a line names first.
    fn new(line: usize, has_recipe: bool) -> Target
        ensures { shown_target result ≡ with_target line has_recipe nothing_named }
    {
        if has_recipe {
            Target::WithRecipe(line)
        } else {
            Target::WithoutRecipe(line)
        }
    }

    fn lines(&self) -> &[usize]
        ensures { result.now ≡ (shown_target self.now).lines }
    {
        match self {
            Target::WithoutRecipe(line) => slice::from_ref(line),
            Target::WithRecipe(line) => slice::from_ref(line),
            Target::Many(lines) => lines.numbers.as_slice(),
        }
    }

    fn recipe(&self) -> Option<usize>
        ensures { result ≡ (shown_target self.now).recipe }
    {
        match self {
            Target::WithoutRecipe(_) => None,
            Target::WithRecipe(line) => Some(*line),
            Target::Many(lines) => lines.recipe,
        }
    }

    /// Takes in that a line names the target, and answers whether its recipe is a second one.
    fn add(&mut self, alloc: Global, line: usize, has_recipe: bool) -> Result<bool, AllocError>
        ensures second { IfOk result (λ second. second ≡ (has_recipe && is_some (shown_target self.old).recipe)) }
        ensures ok { OnOk result (shown_target self.new ≡ with_target line has_recipe (shown_target self.old)) }
    {
        let recipe = self.recipe();
        let is_second = has_recipe && recipe.is_some();
        let first = match self {
            Target::WithoutRecipe(first) => *first,
            Target::WithRecipe(first) => *first,
            Target::Many(lines) => {
                lines.add(line, has_recipe)?;
                return Ok(is_second);
            }
        };
        if first != line {
            *self = two_lines(alloc, first, recipe, line, has_recipe)?;
        } else if has_recipe {
            *self = Target::WithRecipe(line);
        }
        Ok(is_second)
    }
}

impl TargetTable {
    /// No targets, with room for those of these lines: most have one, and few are suffix rules.
    fn with_room(
        alloc: Global,
        lines: &[RuleLine],
        suffix_rules: bool,
    ) -> Result<TargetTable, AllocError>
        ensures { IfOk result (λ table. (name : List ℕ) → named_at table name ≡ nothing_named) }
    {
        let lines = if suffix_rules { &[] } else { lines };
        Ok(TargetTable {
            names: Names::with_room(alloc, lines.len(), target_bytes(lines)),
            targets: Vec::with_capacity(alloc, lines.len())?,
        })
    }

    /// The target of a name with its number, of which this one is tried first.
    fn target(&self, name: &[u8], number: u32) -> Option<(&Target, u32)>
        ensures { MatchOption result (named_at self.now name.now ≡ nothing_named) (λ found. named_at self.now name.now ≡ shown_target found.0.now) }
    {
        let number = self.names.number_near(name, number)?;
        Some((&self.targets[number as usize], number))
    }

    /// The numbers of the lines that name the target, in order, the number of the one that has its recipe, if it isn't one with `::`,
    /// and the place to hand over with the next name. The target at `place` is tried first, so that targets asked for in the order in
    /// which the lines name them are found without a search.
    pub fn near(&self, name: &[u8], place: u32) -> (&[usize], Option<usize>, u32)
        ensures lines { result.0.now ≡ (named_at self.now name.now).lines }
        ensures recipe { result.1 ≡ (named_at self.now name.now).recipe }
    {
        match self.target(name, place) {
            Some((target, number)) => (target.lines(), target.recipe(), number.saturating_add(1)),
            None => (&[], None, place),
        }
    }

    /// The same of a name that may be any.
    #[inline]
    pub fn named(&self, name: &[u8]) -> (&[usize], Option<usize>)
        ensures lines { result.0.now ≡ (named_at self.now name.now).lines }
        ensures recipe { result.1 ≡ (named_at self.now name.now).recipe }
    {
        let (lines, recipe, _) = self.near(name, 0);
        (lines, recipe)
    }

    /// The number of the line that has the name's recipe, if it isn't one with `::`.
    pub fn recipe(&self, name: &[u8]) -> Option<usize>
        ensures { result ≡ (named_at self.now name.now).recipe }
    {
        self.named(name).1
    }

    /// Whether some line has the name among its targets.
    pub fn is_target(&self, name: &[u8]) -> bool
        ensures { result ≡ is_named (named_at self.now name.now) }
    {
        !self.named(name).0.is_empty()
    }

    /// Takes in that a line names the target, and answers whether its recipe is a second one.
    fn add(
        &mut self,
        alloc: Global,
        name: &[u8],
        line: usize,
        has_recipe: bool,
    ) -> Result<bool, AllocError>
        ensures second { IfOk result (λ second. second ≡ (has_recipe && is_some (named_at self.old name.now).recipe)) }
        ensures ok { OnOk result ((n : List ℕ) → named_at self.new n
            ≡ (if bytes_eq n name.now then with_target line has_recipe (named_at self.old n) else named_at self.old n)) }
    {
        self.targets.reserve(1)?;
        let number = self.names.numbered(alloc, name)?;
        let place = number as usize;
        if place < self.targets.len() {
            return self.targets[place].add(alloc, line, has_recipe);
        }
        self.targets.push(Target::new(line, has_recipe)).unwrap();
        Ok(false)
    }

    /// Takes in the targets of the line of this number that are suffix rules, or those that are not.
    fn add_line(
        &mut self,
        alloc: Global,
        number: usize,
        line: &RuleLine,
        suffixes: &ByteStrings,
        suffix_rules: bool,
    ) -> Result<(), RuleFault>
        ensures ok { OnOk result ((name : List ℕ)
            → AddsLine number (not (lacks_single line.now)) (targets_by suffix_rules suffixes.now line.now) name (named_at self.old name) (named_at self.new name)) }
        ensures fault { IfErr result (IsAddFault number line.now.line (not (lacks_single line.now)) (targets_by suffix_rules suffixes.now line.now) self.old) }
    {
        if !line.may_have_targets(suffix_rules) {
            return Ok(());
        }
        let has_recipe = line.has_single_recipe();
        for target in line.targets.iter() {
            if !line.is_chosen(suffixes, suffix_rules, target) {
                continue;
            }
            let is_second = self.add(alloc, target, number, has_recipe)?;
            if is_second {
                let name = ByteString::from_slice(alloc, target)?;
                return Err(RuleFault::TwoRecipes(name, line.line as usize));
            }
        }
        Ok(())
    }

    /// The table of all lines, for their targets that are suffix rules or for those that are not.
    pub fn of_lines(
        alloc: Global,
        lines: &[RuleLine],
        suffixes: &ByteStrings,
        suffix_rules: bool,
    ) -> Result<TargetTable, RuleFault>
        ensures table { IfOk result (IsTable (targets_by suffix_rules suffixes.now) lines.now) }
        ensures fault { IfErr result (IsTableFault (targets_by suffix_rules suffixes.now) lines.now) }
    {
        let mut table = TargetTable::with_room(alloc, lines, suffix_rules)?;
        if suffix_rules && suffixes.is_empty() {
            return Ok(table);
        }
        for (i, line) in lines.iter().enumerate() {
            table.add_line(alloc, i, line, suffixes, suffix_rules)?;
        }
        Ok(table)
    }
}
