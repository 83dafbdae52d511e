//! The order in which implicit rules are tried.
ghost use Rattle.std.specs.Prelude.{◌≡◌, ◌<◌, ◌||◌, length, bytes_eq, codes, IfOk, OnOk, IfSome};
ghost use Rattle.std.specs.List.{list_any, position};
ghost use Rattle.mk_profile.specs.Profile.{is_wide};
ghost use Rattle.mk_makefile.specs.Order.{beside_stem, has_longer_stem, with_form, is_own, ends_in_c, goes_through_c, has_own_through_c, goes_by_c, standing, own_first, in_order_of};

use crate::form::Form;
use byte_strings::ByteStrings;
use mk_rule_lines::RuleLine;
use std::alloc::{AllocError, Global};

const C: &[u8] = b".c";

const OBJECT: &[u8] = b".o";

const YACC_SOURCE: &[u8] = b"%.y";

const LEX_SOURCE: &[u8] = b"%.l";

/// How much of a name of this form isn't its stem.
fn beside_stem(form: &Form) -> usize
    ensures { result ≡ beside_stem form.now }
{
    form.before.as_slice().len() + form.after.as_slice().len()
}

/// Whether the stem of a name of both forms is the longer one by the other.
fn has_longer_stem(form: &Form, other: &Form) -> bool
    ensures { result ≡ has_longer_stem form.now other.now }
{
    beside_stem(other) < beside_stem(form)
}

/// The place of the first form that has a longer stem.
fn first_longer(forms: &[Form], form: &Form) -> Option<usize>
    ensures place { result ≡ position (has_longer_stem form.now) forms.now }
    ensures within { IfSome result (λ place. place < length forms.now) }
{
    forms.iter().position(|other| has_longer_stem(form, other))
}

/// Puts a form before the first one with a longer stem.
fn add_form(forms: &mut Vec<Form>, form: Form) -> Result<(), AllocError>
    ensures { OnOk result (forms.new.items ≡ with_form forms.old.items form) }
{
    let place = first_longer(forms, &form).unwrap_or(forms.len());
    forms.insert(place, form)?;
    Ok(())
}

/// Whether some line is in the wide profile.
fn any_wide(lines: &[RuleLine]) -> bool
    ensures { result ≡ list_any (λ l. is_wide l.profile) lines.now }
{
    lines.iter().any(|line| line.profile.is_wide())
}

/// Whether the form is that of a rule of the makefile's own.
fn is_own(lines: &[RuleLine], form: &Form) -> bool
    ensures { result ≡ is_own lines.now form.now }
{
    match lines.get(form.rule) {
        Some(line) => !line.is_built_in(),
        None => true,
    }
}

fn ends_in_c(bytes: &[u8]) -> bool
    ensures { result ≡ ends_in_c bytes.now }
{
    bytes.strip_suffix(C).is_some()
}

/// Whether some of these patterns is that of a C file.
fn has_c_file(patterns: &ByteStrings) -> bool
    ensures { result ≡ list_any ends_in_c patterns.now }
{
    patterns.iter().any(|pattern| ends_in_c(pattern))
}

/// Whether a rule makes C files, or objects of C files.
fn goes_through_c(form: &Form) -> bool
    ensures { result ≡ goes_through_c form.now }
{
    let after = form.after.as_slice();
    after == C || (after == OBJECT && has_c_file(&form.prerequisites))
}

/// Whether the makefile has such a rule of its own.
fn has_own_through_c(lines: &[RuleLine], listed: &[Form]) -> bool
    ensures { result ≡ has_own_through_c lines.now listed.now }
{
    listed
        .iter()
        .any(|form| is_own(lines, form) && goes_through_c(form))
}

/// Whether some of these patterns is that of a source for yacc or lex.
fn has_grammar(patterns: &ByteStrings) -> bool
    ensures { result ≡ list_any (λ pattern. bytes_eq pattern (codes "%.y") || bytes_eq pattern (codes "%.l")) patterns.now }
{
    patterns
        .iter()
        .any(|pattern| pattern == YACC_SOURCE || pattern == LEX_SOURCE)
}

/// Whether the form is that of a built-in rule that makes an object by way of a C file.
fn goes_by_c(lines: &[RuleLine], form: &Form) -> bool
    ensures { result ≡ goes_by_c lines.now form.now }
{
    !is_own(lines, form) && form.after.as_slice() == OBJECT && has_grammar(&form.prerequisites)
}

/// Takes out the forms that yield to chains with the makefile's own rules.
fn take_out_yielding(lines: &[RuleLine], listed: &mut Vec<Form>)
    ensures { listed.new.items ≡ standing lines.now listed.old.items }
{
    if has_own_through_c(lines, listed) {
        listed.retain(|form| !goes_by_c(lines, form));
    }
}

/// The makefile's own forms, then those of built-in rules, among each the one with the shortest stem first.
fn own_first(alloc: Global, lines: &[RuleLine], listed: Vec<Form>) -> Result<Vec<Form>, AllocError>
    ensures { IfOk result (λ forms. forms.items ≡ own_first lines.now listed.items) }
{
    let mut own = Vec::new(alloc);
    let mut built_in = Vec::new(alloc);
    for form in listed {
        if is_own(lines, &form) {
            add_form(&mut own, form)?;
        } else {
            add_form(&mut built_in, form)?;
        }
    }
    own.append(&mut built_in)?;
    Ok(own)
}

/// The listed forms of these lines in the order in which they are tried.
pub(crate) fn in_order_of(
    alloc: Global,
    lines: &[RuleLine],
    mut listed: Vec<Form>,
) -> Result<Vec<Form>, AllocError>
    ensures { IfOk result (λ forms. forms.items ≡ in_order_of lines.now listed.items) }
{
    if !any_wide(lines) {
        return Ok(listed);
    }
    take_out_yielding(lines, &mut listed);
    own_first(alloc, lines, listed)
}
