//! The names on an include line, and what is defined for the lines below.
ghost use Rattle.std.specs.Prelude.{◌≡◌, [], ◌∷◌, is_none, IfOk, IfErr, OnOk};
ghost use Rattle.std.specs.List.{list_any};
ghost use Rattle.mk_lines.specs.Text.{is_dollar};
ghost use Rattle.mk_macros.specs.Expansion.{gives};
ghost use Rattle.mk_macros.specs.Ranks.{defined_by};
ghost use Rattle.mk_eval.specs.Makefile.{behind, fault_told, LineNames, IsNamesFault};

use crate::refuse::refuse_text;
use mk_macros::{Dynamic, MacroFault, Macros, Rank};
use mk_reader::{IncludeLine, Item, ReadFault};
use std::alloc::{AllocError, Global};

pub fn has_dollar(text: &[u8]) -> bool
    ensures { result ≡ list_any is_dollar text.now }
{
    text.contains(&b'$')
}

/// Whether memory ran out, which says nothing of a text.
pub fn ran_out(fault: &MacroFault) -> bool
    ensures { result ≡ is_none (fault_told fault.now) }
{
    matches!(fault, MacroFault::OutOfMemory)
}

/// The names on an include line. A text with a reference is expanded.
pub fn names_on(
    alloc: Global,
    file: &[u8],
    include: &IncludeLine,
    macros: &Macros,
) -> Result<Vec<u8>, ReadFault>
    ensures names { IfOk result (λ names. LineNames (defined_by macros.now) include.now.names (gives names.items)) }
    ensures fault { IfErr result (IsNamesFault (defined_by macros.now) file.now include.now) }
{
    let text = include.names.as_slice();
    if !has_dollar(text) {
        let names = Vec::from_slice(alloc, text)?;
        return Ok(names);
    }
    match macros.expand(alloc, text, &Dynamic::RuleLine) {
        Ok(names) => Ok(names),
        Err(fault) => Err(refuse_text(alloc, file, include.line, fault)),
    }
}

/// Takes an item's definition into the macros, where lines below may be expanded while they are read.
pub fn follow(alloc: Global, macros: &mut Macros, item: &Item) -> Result<(), AllocError>
    ensures { OnOk result (defined_by macros.new ≡ behind (defined_by macros.old) (item.now ∷ [])) }
{
    if !macros.profile().is_wide() {
        return Ok(());
    }
    if let Item::Definition(definition) = item {
        let name = definition.name.as_slice();
        let value = definition.value.as_slice();
        macros.define(alloc, Rank::Makefile, name, value, definition.append)?;
        return macros.mark(alloc, name, definition.is_fixed);
    }
    Ok(())
}
