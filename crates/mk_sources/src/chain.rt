//! Chains of implicit rules.
ghost use Rattle.std.specs.Prelude.{◌≡◌, ◌<◌, ℕ, false, List, ◌∷◌, Option, None, option_map, if◌then◌else◌, IfOk, IfErr};
ghost use Rattle.std.specs.List.{list_all};
ghost use Rattle.mk_graph.specs.Edges.{has as has_number};
ghost use Rattle.mk_makefile.specs.Source.{stem_of, source_of};
ghost use Rattle.mk_sources.specs.There.{is_there};
ghost use Rattle.mk_nodes.specs.Chain.{any_wide, steps_of, makes_any, has_a_type, is_usable, usable, first_that, can_be, chained, source_in};
ghost use Rattle.mk_nodes.specs.Links.{AreLinks};
ghost use Rattle.mk_sources.specs.Search.{IsAmong, IsAskedIn, IsBehind, IsChainedTo, IsLedFault, IsSearchFault};
ghost use Rattle.mk_sources.specs.Looks.{Looks};
ghost use Rattle.mk_nodes.specs.declared.file_look.FileLook.{FileLook};

use crate::links::{makes_any, may_lead_on, stem_of, steps_behind};
use crate::source::{is_there, source_of};
use crate::tree::Tree;
use byte_strings::ByteStrings;
use mk_makefile::{Form, Source, TargetTable};
use mk_nodes::MAX_STEPS;
use mk_rule_lines::{RuleFault, RuleLine};
use std::alloc::{AllocError, Global};

/// Whether some line is in the wide profile.
fn any_wide(lines: &[RuleLine]) -> bool
    ensures { result ≡ any_wide lines.now }
{
    lines.iter().any(|line| line.profile.is_wide())
}

/// How many rules a chain of these lines may have before its last one.
pub fn steps_of(lines: &[RuleLine]) -> usize
    ensures { result ≡ steps_of lines.now }
{
    if any_wide(lines) { MAX_STEPS } else { 0 }
}

/// Whether the name has a form with something beside its stem.
fn has_a_type(forms: &[Form], name: &[u8]) -> bool
    ensures { result ≡ has_a_type forms.now name.now }
{
    forms
        .iter()
        .any(|form| !makes_any(form) && stem_of(form, name).is_some())
}

fn has_number(numbers: &[usize], number: usize) -> bool
    ensures { result ≡ has_number numbers.now number }
{
    numbers.iter().any(|other| number == *other)
}

/// The folder and the stem of a name of this form, where a chain may go on with it.
fn usable_stem<'n>(
    form: &Form,
    any: bool,
    taken: &[usize],
    name: &'n [u8],
) -> Option<(&'n [u8], &'n [u8])>
    ensures { option_map (λ s. (s.0.now, s.1.now)) result ≡ (if is_usable any taken.now form.now then stem_of form.now name.now else None) }
{
    if (any || !makes_any(form)) && !has_number(taken, form.rule) {
        stem_of(form, name)
    } else {
        None
    }
}

/// These rules with one more.
fn with_rule(alloc: Global, rule: usize, taken: &[usize]) -> Result<Vec<usize>, AllocError>
    ensures { IfOk result (λ rules. rules.items ≡ rule ∷ taken.now) }
{
    let mut rules = Vec::new(alloc);
    rules.push(rule)?;
    rules.extend_from_slice(taken)?;
    Ok(rules)
}

/// What names may be made by.
#[derive(Clone, Copy)]
pub(crate) struct Makers<'m> {
    pub targets: &'m TargetTable,
    pub forms: &'m [Form],
    /// Of each form, whether a chain may go on behind it.
    pub links: &'m [bool],
    pub ghost linked: { AreLinks forms.now links.now },
}

/// Whether a name is there, or rules that aren't taken can make it in so many steps.
#[cycle(chain)]
fn can_be<T: Tree>(
    alloc: Global,
    makers: &Makers,
    tree: &mut T,
    steps: usize,
    taken: &[usize],
    name: &[u8],
) -> Result<bool, RuleFault>
    ensures can_be { IfOk result (λ can. (looks : List ℕ → Option FileLook) → T.allows tree.new looks
        → can ≡ can_be (is_there makers.now.targets.now looks) makers.now.forms.now steps taken.now name.now) }
    ensures looks { Looks (T.allows tree.old) (T.allows tree.new) (T.refuses tree.old) (T.refuses tree.new) (T.asked tree.old) (T.asked tree.new) (T.firsts tree.old) (T.firsts tree.new) }
    ensures fault { IfErr result (IsLedFault makers.now.targets.now (T.refuses tree.new) (IsAskedIn makers.now.forms.now steps taken.now name.now)) }
{
    if is_there(alloc, makers.targets, tree, name)? {
        return Ok(true);
    }
    if steps == 0 {
        return Ok(false);
    }
    let source = first_that(alloc, makers, tree, steps - 1, taken, name)?;
    Ok(source.is_some())
}

/// Whether each of these names can be, up to the first that can't.
#[cycle(chain)]
fn all_can_be<T: Tree>(
    alloc: Global,
    makers: &Makers,
    tree: &mut T,
    steps: usize,
    taken: &[usize],
    names: &ByteStrings,
) -> Result<bool, RuleFault>
    ensures can_be { IfOk result (λ can. (looks : List ℕ → Option FileLook) → T.allows tree.new looks
        → can ≡ list_all (can_be (is_there makers.now.targets.now looks) makers.now.forms.now steps taken.now) names.now) }
    ensures looks { Looks (T.allows tree.old) (T.allows tree.new) (T.refuses tree.old) (T.refuses tree.new) (T.asked tree.old) (T.asked tree.new) (T.firsts tree.old) (T.firsts tree.new) }
    ensures fault { IfErr result (IsLedFault makers.now.targets.now (T.refuses tree.new) (IsAmong (IsAskedIn makers.now.forms.now steps taken.now) names.now)) }
{
    for name in names.iter() {
        if !can_be(alloc, makers, tree, steps, taken, name)? {
            return Ok(false);
        }
    }
    Ok(true)
}

/// The first of all candidates of whose names each can be in so many steps, once its rule is taken.
#[cycle(chain)]
fn first_that<T: Tree>(
    alloc: Global,
    makers: &Makers,
    tree: &mut T,
    steps: usize,
    taken: &[usize],
    name: &[u8],
) -> Result<Option<Source>, RuleFault>
    ensures source { IfOk result (λ found. (looks : List ℕ → Option FileLook) → T.allows tree.new looks
        → found ≡ first_that (λ rule. can_be (is_there makers.now.targets.now looks) makers.now.forms.now steps (rule ∷ taken.now))
        (usable false taken.now makers.now.forms.now) name.now) }
    ensures looks { Looks (T.allows tree.old) (T.allows tree.new) (T.refuses tree.old) (T.refuses tree.new) (T.asked tree.old) (T.asked tree.new) (T.firsts tree.old) (T.firsts tree.new) }
    ensures fault { IfErr result (IsLedFault makers.now.targets.now (T.refuses tree.new)
        (IsBehind (λ rule. IsAskedIn makers.now.forms.now steps (rule ∷ taken.now)) (usable false taken.now makers.now.forms.now) name.now)) }
{
    for (number, form) in makers.forms.iter().enumerate() {
        let Some((folder, stem)) = usable_stem(form, false, taken, name) else {
            continue;
        };
        let source = form.source(alloc, folder, stem)?;
        let taken = with_rule(alloc, form.rule, taken)?;
        let steps = steps_behind(makers.links, number, steps);
        if all_can_be(alloc, makers, tree, steps, &taken, &source.names)? {
            return Ok(Some(source));
        }
        drop(source);
    }
    Ok(None)
}

/// What a chain makes the name from that has so many steps before the last one, where no candidate is there.
fn chained<T: Tree>(
    alloc: Global,
    makers: &Makers,
    tree: &mut T,
    steps: usize,
    name: &[u8],
) -> Result<Option<Source>, RuleFault>
    requires none { (looks : List ℕ → Option FileLook) → T.allows tree.old looks
        → source_of (is_there makers.now.targets.now looks) makers.now.forms.now name.now ≡ None }
    ensures source { IfOk result (λ found. (looks : List ℕ → Option FileLook) → T.allows tree.new looks
        → found ≡ chained (is_there makers.now.targets.now looks) makers.now.forms.now steps name.now) }
    ensures looks { Looks (T.allows tree.old) (T.allows tree.new) (T.refuses tree.old) (T.refuses tree.new) (T.asked tree.old) (T.asked tree.new) (T.firsts tree.old) (T.firsts tree.new) }
    ensures fault { IfErr result (IsLedFault makers.now.targets.now (T.refuses tree.new) (IsChainedTo makers.now.forms.now steps name.now)) }
{
    let any = !has_a_type(makers.forms, name);
    for (number, form) in makers.forms.iter().enumerate() {
        // Where no rule makes a prerequisite, the candidate isn't there.
        if !may_lead_on(makers.links, number) {
            continue;
        }
        let Some((folder, stem)) = usable_stem(form, any, &[], name) else {
            continue;
        };
        let source = form.source(alloc, folder, stem)?;
        if all_can_be(alloc, makers, tree, steps, &[form.rule], &source.names)? {
            return Ok(Some(source));
        }
        drop(source);
    }
    Ok(None)
}

/// What a chain of fewest steps makes the name from, where no candidate is there.
fn shortest<T: Tree>(
    alloc: Global,
    makers: &Makers,
    tree: &mut T,
    steps: usize,
    name: &[u8],
) -> Result<Option<Source>, RuleFault>
    requires some { 0 < steps }
    requires none { (looks : List ℕ → Option FileLook) → T.allows tree.old looks
        → source_of (is_there makers.now.targets.now looks) makers.now.forms.now name.now ≡ None }
    ensures source { IfOk result (λ found. (looks : List ℕ → Option FileLook) → T.allows tree.new looks
        → found ≡ source_in (is_there makers.now.targets.now looks) makers.now.forms.now steps name.now) }
    ensures looks { Looks (T.allows tree.old) (T.allows tree.new) (T.refuses tree.old) (T.refuses tree.new) (T.asked tree.old) (T.asked tree.new) (T.firsts tree.old) (T.firsts tree.new) }
    ensures fault { IfErr result (IsSearchFault makers.now.targets.now (T.allows tree.new) (T.refuses tree.new) makers.now.forms.now steps name.now) }
{
    // What can't be made in so many steps can't be made in fewer.
    let Some(longest) = chained(alloc, makers, tree, steps, name)? else {
        return Ok(None);
    };
    for fewer in 1..steps {
        if let Some(source) = chained(alloc, makers, tree, fewer, name)? {
            return Ok(Some(source));
        }
    }
    Ok(Some(longest))
}

/// What implicit rules make the name from, by chains of at most so many steps before the last one.
///
/// The answer is right for any looks that agree with what the tree answered.
pub(crate) fn source_in<T: Tree>(
    alloc: Global,
    makers: &Makers,
    tree: &mut T,
    steps: usize,
    name: &[u8],
) -> Result<Option<Source>, RuleFault>
    ensures source { IfOk result (λ found. (looks : List ℕ → Option FileLook) → T.allows tree.new looks
        → found ≡ source_in (is_there makers.now.targets.now looks) makers.now.forms.now steps name.now) }
    ensures looks { Looks (T.allows tree.old) (T.allows tree.new) (T.refuses tree.old) (T.refuses tree.new) (T.asked tree.old) (T.asked tree.new) (T.firsts tree.old) (T.firsts tree.new) }
    ensures fault { IfErr result (IsSearchFault makers.now.targets.now (T.allows tree.new) (T.refuses tree.new) makers.now.forms.now steps name.now) }
{
    if let Some(there) = source_of(alloc, makers.targets, tree, makers.forms, name)? {
        return Ok(Some(there));
    }
    if steps == 0 {
        return Ok(None);
    }
    shortest(alloc, makers, tree, steps, name)
}
