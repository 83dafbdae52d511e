//! Names that ought to exist, since a rule line has them among its prerequisites.
ghost use Rattle.std.specs.Prelude.{◌≡◌, ◌||◌, None, option_map, if◌then◌else◌, IfOk};
ghost use Rattle.std.specs.List.{list_all};
ghost use Rattle.mk_makefile.specs.Source.{stem_of, source_at};
ghost use Rattle.mk_nodes.specs.Prerequisites.{is_target};
ghost use Rattle.mk_nodes.specs.Wanted.{wants, is_wanted, takes_any, from_wanted};

use crate::links::{ends_anyhow, set_name, stem_of};
use crate::rules::Rules;
use mk_makefile::{Form, Source};
use mk_rule_lines::RuleLine;
use std::alloc::{AllocError, Global};

/// Whether the line is one of a rule and has the name among its prerequisites, in the wide profile.
fn wants(line: &RuleLine, name: &[u8]) -> bool
    ensures { result ≡ wants name.now line.now }
{
    line.profile.is_wide() && line.is_rule() && line.prerequisites.has(name)
}

/// Whether some line does.
fn is_wanted(lines: &[RuleLine], name: &[u8]) -> bool
    ensures { result ≡ is_wanted lines.now name.now }
{
    lines.iter().any(|line| wants(line, name))
}

/// Whether one of the form's prerequisites may end in any way.
fn takes_any(form: &Form) -> bool
    ensures { result ≡ takes_any form.now }
{
    form.prerequisites
        .iter()
        .any(|pattern| ends_anyhow(pattern))
}

/// The folder and the stem of a name of such a form.
fn wanting_stem<'n>(form: &Form, name: &'n [u8]) -> Option<(&'n [u8], &'n [u8])>
    ensures { option_map (λ s. (s.0.now, s.1.now)) result ≡ (if takes_any form.now then stem_of form.now name.now else None) }
{
    let stem = stem_of(form, name)?;
    if takes_any(form) { Some(stem) } else { None }
}

/// Whether the name is a target, or ought to exist.
fn ought_to_exist(rules: &Rules, name: &[u8]) -> bool
    ensures { result ≡ (is_target rules.now.lines.now name.now || is_wanted rules.now.lines.now name.now) }
{
    rules.is_target(name) || is_wanted(rules.lines, name)
}

/// Whether so does each prerequisite of a form with this stem in this folder, up to the first that doesn't.
fn all_ought_to_exist(
    alloc: Global,
    rules: &Rules,
    form: &Form,
    folder: &[u8],
    stem: &[u8],
) -> Result<bool, AllocError>
    ensures { IfOk result (λ all. all ≡ list_all (λ n. is_target rules.now.lines.now n || is_wanted rules.now.lines.now n)
        (source_at form.now (folder.now, stem.now)).names) }
{
    let mut name = Vec::new(alloc);
    for pattern in form.prerequisites.iter() {
        set_name(&mut name, pattern, folder, stem)?;
        if !ought_to_exist(rules, &name) {
            return Ok(false);
        }
    }
    Ok(true)
}

/// What a rule one of whose prerequisites may end in any way makes the name from, where all of them are targets or ought to exist.
pub(crate) fn from_wanted(
    alloc: Global,
    rules: &Rules,
    name: &[u8],
) -> Result<Option<Source>, AllocError>
    ensures { IfOk result (λ found. found ≡ from_wanted (is_target rules.now.lines.now) rules.now.lines.now rules.now.forms.now name.now) }
{
    for form in rules.forms {
        let Some((folder, stem)) = wanting_stem(form, name) else {
            continue;
        };
        if all_ought_to_exist(alloc, rules, form, folder, stem)? {
            return Ok(Some(form.source(alloc, folder, stem)?));
        }
    }
    Ok(None)
}
