//! The implicit source of a name.
ghost use Rattle.std.specs.Prelude.{◌≡◌, ℕ, List, Option, false, IfOk, IfErr, IsErr};
ghost use Rattle.std.specs.List.{list_all};
ghost use Rattle.mk_makefile.specs.Source.{source_at, source_of};
ghost use Rattle.mk_sources.specs.Source.{IsAllFault, IsSourceFault};
ghost use Rattle.mk_sources.specs.Looks.{IsLookFault, Looks};
ghost use Rattle.mk_makefile.specs.Table.{is_named, named_at};
ghost use Rattle.mk_sources.specs.There.{is_there};
ghost use Rattle.mk_nodes.specs.declared.file_look.FileLook.{FileLook};

use crate::links::{set_name, stem_of};
use crate::look::stamp_of;
use crate::tree::Tree;
use mk_makefile::{Form, Source, TargetTable};
use mk_rule_lines::RuleFault;
use std::alloc::Global;

/// Whether some line makes the name, or it has a file.
pub(crate) fn is_there<T: Tree>(
    alloc: Global,
    targets: &TargetTable,
    tree: &mut T,
    name: &[u8],
) -> Result<bool, RuleFault>
    ensures there { IfOk result (λ there. (looks : List ℕ → Option FileLook)
        → T.allows tree.new looks → there ≡ is_there targets.now looks name.now) }
    ensures looks { Looks (T.allows tree.old) (T.allows tree.new) (T.refuses tree.old) (T.refuses tree.new) (T.asked tree.old) (T.asked tree.new) (T.firsts tree.old) (T.firsts tree.new) }
    ensures fault { IfErr result (IsLookFault (T.refuses tree.new) name.now) }
    ensures asked { IsErr result → is_named (named_at targets.now name.now) ≡ false }
{
    if targets.is_target(name) {
        return Ok(true);
    }
    let stamp = stamp_of(alloc, tree, name)?;
    Ok(stamp.is_some())
}

/// Whether each prerequisite of a form with this stem in this folder is there, up to the first that isn't.
fn all_there<T: Tree>(
    alloc: Global,
    targets: &TargetTable,
    tree: &mut T,
    form: &Form,
    folder: &[u8],
    stem: &[u8],
) -> Result<bool, RuleFault>
    ensures there { IfOk result (λ there. (looks : List ℕ → Option FileLook) → T.allows tree.new looks
        → there ≡ list_all (is_there targets.now looks) (source_at form.now (folder.now, stem.now)).names) }
    ensures looks { Looks (T.allows tree.old) (T.allows tree.new) (T.refuses tree.old) (T.refuses tree.new) (T.asked tree.old) (T.asked tree.new) (T.firsts tree.old) (T.firsts tree.new) }
    ensures fault { IfErr result (IsAllFault targets.now (T.allows tree.new) (T.refuses tree.new) (source_at form.now (folder.now, stem.now)).names) }
{
    let mut name = Vec::new(alloc);
    for pattern in form.prerequisites.iter() {
        set_name(&mut name, pattern, folder, stem)?;
        if !is_there(alloc, targets, tree, &name)? {
            return Ok(false);
        }
    }
    Ok(true)
}

/// What an implicit rule makes the name from: the first of all candidates, in the order of the forms, of whose names each has a
/// file or some line that makes it.
///
/// The answer is right for any looks that agree with what the tree answered.
pub(crate) fn source_of<T: Tree>(
    alloc: Global,
    targets: &TargetTable,
    tree: &mut T,
    forms: &[Form],
    name: &[u8],
) -> Result<Option<Source>, RuleFault>
    ensures source { IfOk result (λ found. (looks : List ℕ → Option FileLook)
        → T.allows tree.new looks → found ≡ source_of (is_there targets.now looks) forms.now name.now) }
    ensures looks { Looks (T.allows tree.old) (T.allows tree.new) (T.refuses tree.old) (T.refuses tree.new) (T.asked tree.old) (T.asked tree.new) (T.firsts tree.old) (T.firsts tree.new) }
    ensures fault { IfErr result (IsSourceFault targets.now (T.allows tree.new) (T.refuses tree.new) forms.now name.now) }
{
    for form in forms {
        let Some((folder, stem)) = stem_of(form, name) else {
            continue;
        };
        if all_there(alloc, targets, tree, form, folder, stem)? {
            return Ok(Some(form.source(alloc, folder, stem)?));
        }
    }
    Ok(None)
}
