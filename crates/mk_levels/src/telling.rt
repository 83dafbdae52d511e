//! What is told of targets that are taken over.
ghost use Rattle.std.specs.Prelude.{◌≡◌, ◌++◌, ◌∷◌, [], codes, string_bytes, IfOk, OnOk};
ghost use Rattle.mk_plan.specs.Telling.{about};
ghost use Rattle.mk_levels.specs.Told.{line_of, told};

use crate::level::{Level, first_knowing};
use mk_plan::Telling;
use plain_text::to_plain;
use st_records::Record;
use std::alloc::{AllocError, Global};

/// Adds the line about a target.
fn push_about(
    alloc: Global,
    text: &mut Vec<u8>,
    target: &[u8],
    level: &Level,
) -> Result<(), AllocError>
    ensures { OnOk result (text.new.items ≡ text.old.items ++ (about target.now (codes "known by " ++ string_bytes level.now.name) ++ 10 ∷ [])) }
{
    let mut line = Vec::from_slice(alloc, b"dmk: ")?;
    line.extend_from_slice(target)?;
    line.extend_from_slice(b": known by ")?;
    line.extend_from_slice(level.name.as_bytes())?;
    let shown = to_plain(alloc, &line)?;
    text.extend_from_slice(&shown)?;
    text.push(b'\n')?;
    Ok(())
}

/// Adds the line about the target of a record, where a level knows it.
fn push_line(
    alloc: Global,
    text: &mut Vec<u8>,
    levels: &[Level],
    note: &Record,
) -> Result<(), AllocError>
    ensures { OnOk result (text.new.items ≡ text.old.items ++ line_of levels.now note.now) }
{
    let target = note.target().as_slice();
    match first_knowing(target, levels) {
        Some(level) => push_about(alloc, text, target, level),
        None => Ok(()),
    }
}

/// The lines that tell of each target that was taken over which level knows it, where reasons are told.
pub fn told_known(
    alloc: Global,
    telling: Telling,
    levels: &[Level],
    notes: &[Record],
) -> Result<Vec<u8>, AllocError>
    ensures { IfOk result (λ text. text.items ≡ told telling levels.now notes.now) }
{
    let mut text = Vec::new(alloc);
    match telling {
        Telling::Reasons | Telling::All => {}
        Telling::Nothing | Telling::AllMade => return Ok(text),
    }
    for note in notes {
        push_line(alloc, &mut text, levels, note)?;
    }
    Ok(text)
}
