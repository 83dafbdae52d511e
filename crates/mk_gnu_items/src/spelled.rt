//! Names as texts of the wide profile.
ghost use Rattle.std.specs.Prelude.{◌≡◌, ◌++◌, IfOk, OnOk};
ghost use Rattle.mk_gnu_items.specs.Names.{spelled, spelled_behind, prerequisites_text};
ghost use Rattle.mk_gnu_items.specs.Rules.{with_names};

use crate::names::Names;
use byte_strings::{ByteString, ByteStrings};
use mk_eval::doubled_text;
use mk_reader::Rule;
use std::alloc::{AllocError, Global};

fn push_spelled(alloc: Global, out: &mut Vec<u8>, names: &ByteStrings) -> Result<(), AllocError>
    ensures { OnOk result (out.new.items ≡ out.old.items ++ spelled names.now) }
{
    for name in names.iter() {
        let text = doubled_text(alloc, name)?;
        out.push(b' ')?;
        out.extend_from_slice(text.as_slice())?;
    }
    Ok(())
}

fn push_behind(alloc: Global, out: &mut Vec<u8>, order_only: &ByteStrings) -> Result<(), AllocError>
    ensures { OnOk result (out.new.items ≡ out.old.items ++ spelled_behind order_only.now) }
{
    if order_only.is_empty() {
        return Ok(());
    }
    out.extend_from_slice(b" |")?;
    push_spelled(alloc, out, order_only)
}

fn prerequisites_text(alloc: Global, names: &Names) -> Result<Vec<u8>, AllocError>
    ensures { IfOk result (λ text. text.items ≡ prerequisites_text names.now) }
{
    let mut out = Vec::new(alloc);
    push_spelled(alloc, &mut out, &names.prerequisites)?;
    push_behind(alloc, &mut out, &names.order_only)?;
    Ok(out)
}

/// The rule with these names for its texts.
pub(crate) fn with_names(alloc: Global, rule: Rule, names: &Names) -> Result<Rule, AllocError>
    ensures { IfOk result (λ it. it ≡ with_names rule names.now) }
{
    let mut targets = Vec::new(alloc);
    push_spelled(alloc, &mut targets, &names.targets)?;
    let prerequisites = prerequisites_text(alloc, names)?;
    Ok(Rule {
        file: rule.file,
        line: rule.line,
        is_double: rule.is_double,
        targets: ByteString::new(targets),
        prerequisites: ByteString::new(prerequisites),
        recipe: rule.recipe,
    })
}
