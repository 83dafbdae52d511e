//! What the ends of names tell: which forms they are not of, and behind which implicit rules a chain may go on.
ghost use Rattle.std.specs.Prelude.{◌≡◌, ◌<◌, ◌≤◌, ℕ, List, Bool, true, false, map, option_map, slice_get, length, Some, None, IfOk, OnOk, IfSome};
ghost use Rattle.std.specs.List.{list_any, list_all};
ghost use Rattle.mk_macros.specs.Words.{place_of};
ghost use Rattle.mk_lines.specs.Text.{is_empty};
ghost use Rattle.mk_makefile.specs.Source.{stem_of, source_at, with_stem};
ghost use Rattle.mk_makefile.specs.declared.form.Form.{Form};
ghost use Rattle.mk_nodes.specs.Chain.{makes_any, can_be};
ghost use Rattle.mk_nodes.specs.Links.{end_of, ends_with, end_alike, may_make, leads_on, AreLinks};
ghost use Rattle.mk_sources.specs.Search.{IsAskedIn};

use mk_makefile::Form;
use std::alloc::{AllocError, Global};

/// Whether a form has nothing beside its stem.
pub(crate) fn makes_any(form: &Form) -> bool
    ensures { result ≡ makes_any form.now }
{
    form.before.as_slice().is_empty() && form.after.as_slice().is_empty()
}

/// Whether the last byte of a name tells that it isn't of this form.
#[tactic(auto, using(crate::proofs::LinkLemmas::other_last))]
fn ends_otherwise(form: &Form, name: &[u8]) -> bool
    ensures { result ≡ true → stem_of form.now name.now ≡ None }
{
    match (form.after.as_slice().last(), name.last()) {
        (Some(ending), Some(last)) => *ending != *last,
        _ => false,
    }
}

/// The stem of a name of this form, behind the folder that is left aside. Most forms are told by their last byte.
pub(crate) fn stem_of<'n>(form: &Form, name: &'n [u8]) -> Option<(&'n [u8], &'n [u8])>
    ensures { option_map (λ s. (s.0.now, s.1.now)) result ≡ stem_of form.now name.now }
{
    if ends_otherwise(form, name) {
        return None;
    }
    form.stem(name)
}

/// The place of the first `%`.
fn percent(pattern: &[u8]) -> Option<usize>
    ensures place { result ≡ place_of 37 pattern.now }
    ensures within { IfSome result (λ place. place < length pattern.now) }
{
    pattern.iter().position(|byte| *byte == b'%')
}

/// Makes the name one of the pattern, with the stem in the place of its first `%`, in the folder.
pub(crate) fn set_name(
    name: &mut Vec<u8>,
    pattern: &[u8],
    folder: &[u8],
    stem: &[u8],
) -> Result<(), AllocError>
    ensures { OnOk result (name.new.items ≡ with_stem folder.now stem.now pattern.now) }
{
    name.clear();
    let Some(place) = percent(pattern) else {
        return name.extend_from_slice(pattern);
    };
    name.extend_from_slice(folder)?;
    name.extend_from_slice(&pattern[..place])?;
    name.extend_from_slice(stem)?;
    name.extend_from_slice(&pattern[place + 1..])
}

/// What all names of a pattern end with: what stands behind its first `%`, or the whole of one without.
fn end_of(pattern: &[u8]) -> &[u8]
    ensures { result.now ≡ end_of pattern.now }
{
    match percent(pattern) {
        Some(place) => &pattern[place + 1..],
        None => pattern,
    }
}

/// Whether names of the pattern may end in any way.
pub(crate) fn ends_anyhow(pattern: &[u8]) -> bool
    ensures { result ≡ is_empty (end_of pattern.now) }
{
    end_of(pattern).is_empty()
}

fn ends_with(text: &[u8], ending: &[u8]) -> bool
    ensures { result ≡ ends_with text.now ending.now }
{
    text.ends_with(ending)
}

/// Whether some name ends with both.
fn end_alike(a: &[u8], b: &[u8]) -> bool
    ensures { result ≡ end_alike a.now b.now }
{
    ends_with(a, b) || ends_with(b, a)
}

/// Whether the form may make a name of the pattern on the way of a chain.
fn may_make(pattern: &[u8], form: &Form) -> bool
    ensures { result ≡ may_make pattern.now form.now }
{
    !makes_any(form) && end_alike(end_of(pattern), form.after.as_slice())
}

/// Whether some rule may make a name of the pattern.
fn any_may_make(forms: &[Form], pattern: &[u8]) -> bool
    ensures { result ≡ list_any (may_make pattern.now) forms.now }
{
    forms.iter().any(|form| may_make(pattern, form))
}

/// Whether a chain may lead on behind the form: whether some rule may make one of its prerequisites.
fn leads_on(forms: &[Form], form: &Form) -> bool
    ensures { result ≡ leads_on forms.now form.now }
{
    form.prerequisites
        .iter()
        .any(|pattern| any_may_make(forms, pattern))
}

/// Of each form, whether a chain may lead on behind it.
fn all_links(alloc: Global, forms: &[Form]) -> Result<Vec<bool>, AllocError>
    ensures { IfOk result (λ links. links.items ≡ map (leads_on forms.now) forms.now) }
{
    let mut links = Vec::with_capacity(alloc, forms.len())?;
    for form in forms {
        links.push(leads_on(forms, form))?;
    }
    Ok(links)
}

/// Of each form, whether a chain may lead on behind it; of none where a chain has no steps.
#[tactic(auto, using(crate::proofs::LinkLemmas::links_are, crate::proofs::LinkLemmas::no_links))]
pub fn links_of(alloc: Global, forms: &[Form], steps: usize) -> Result<Vec<bool>, AllocError>
    ensures { IfOk result (λ links. AreLinks forms.now links.items) }
{
    if steps == 0 {
        return Ok(Vec::new(alloc));
    }
    all_links(alloc, forms)
}

/// Whether a chain may lead on behind the form of this number, for all that is known.
pub(crate) fn may_lead_on(links: &[bool], number: usize) -> bool
    ensures { (forms : List Form) (form : Form) → AreLinks forms links.now → slice_get forms number ≡ Some form
        → result ≡ false → leads_on forms form ≡ false }
{
    match links.get(number) {
        Some(leads_on) => *leads_on,
        None => true,
    }
}

/// How many steps are left behind the form of this number: where no rule makes a prerequisite, all have to be there.
pub(crate) fn steps_behind(links: &[bool], number: usize, steps: usize) -> usize
    ensures few { result ≤ steps }
    ensures same { (there : List ℕ → Bool) (forms : List Form) (form : Form) → AreLinks forms links.now → slice_get forms number ≡ Some form
        → (stem : List ℕ × List ℕ) (taken : List ℕ) → list_all (can_be there forms result taken) (source_at form stem).names
        ≡ list_all (can_be there forms steps taken) (source_at form stem).names }
    ensures asked { (forms : List Form) (taken name n : List ℕ) → IsAskedIn forms result taken name n → IsAskedIn forms steps taken name n }
{
    if may_lead_on(links, number) { steps } else { 0 }
}
