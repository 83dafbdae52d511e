//! Reads a whole makefile, with the files that it includes in their places.
ghost use Rattle.std.specs.Prelude.{[], Ok, Err, OnOk, IfOk, IfErr, map};
ghost use Rattle.mk_statements.specs.Reading.{stated};
ghost use Rattle.mk_taken.specs.Shown.{other_by};
ghost use Rattle.mk_variables.specs.Table.{table_of};
ghost use Rattle.mk_gnu_eval.specs.Reading.{begins, Each, Includes, Hands, Lines, Text, Named, depth};
ghost use Rattle.mk_gnu_eval.specs.Shown.{here_of, progress_of, IsRefused};
ghost use Rattle.mk_gnu_eval.specs.World.{World};

use crate::fault::{Cause, Refused};
use crate::files::Files;
use crate::lines::{next_other, take_line, take_recipe, take_search, value_of};
use crate::names::included_names;
use crate::progress::Progress;
use crate::refuse::{refuse_depth, refuse_line, refuse_missing};
use crate::site::Site;
use byte_strings::ByteStrings;
use mk_functions::Outside;
use mk_statements::{Line, statements_of};
use mk_taken::{Other, Reached, Reading};
use mk_variables::Table;
use std::alloc::Global;

/// How deep includes may be nested.
pub const MAX_INCLUDE_DEPTH: u8 = 16;

/// Reads the text of a file, from where its conditionals are its own and no rule is open.
#[cycle(reading)]
fn read_text<O: Outside, F: Files>(
    alloc: Global,
    progress: &mut Progress,
    outside: &mut O,
    files: &mut F,
    levels: u8,
    file: &[u8],
    text: &[u8],
) -> Result<(), Refused>
    ensures told { (world : World) → O.allows outside.new world.answers → F.allows files.new world.files
        → OnOk result (Text world (Named world levels) file.now text.now (progress_of progress.old) (Ok (progress_of progress.new))) }
    ensures refused { (world : World) → O.allows outside.new world.answers → F.allows files.new world.files
        → IfErr result (IsRefused (λ why. Text world (Named world levels) file.now text.now (progress_of progress.old) (Err why))) }
    ensures narrows { (world : World) → O.allows outside.new world.answers → O.allows outside.old world.answers }
    ensures narrows_files { (world : World) → F.allows files.new world.files → F.allows files.old world.files }
{
    let lines = statements_of(alloc, text)?;
    read_lines(
        alloc,
        progress,
        outside,
        files,
        levels,
        file,
        lines.as_slice(),
    )
}

/// Reads the statements of a file.
#[cycle(reading)]
fn read_lines<'a, O: Outside, F: Files>(
    alloc: Global,
    progress: &mut Progress,
    outside: &mut O,
    files: &mut F,
    levels: u8,
    file: &[u8],
    lines: &'a [Line<'a>],
) -> Result<(), Refused>
    ensures told { (world : World) → O.allows outside.new world.answers → F.allows files.new world.files
        → OnOk result (Lines world (Named world levels) file.now (map stated lines.now) (begins (progress_of progress.old)) (Ok (progress_of progress.new))) }
    ensures refused { (world : World) → O.allows outside.new world.answers → F.allows files.new world.files
        → IfErr result (IsRefused (λ why. Lines world (Named world levels) file.now (map stated lines.now) (begins (progress_of progress.old)) (Err why))) }
    ensures narrows { (world : World) → O.allows outside.new world.answers → O.allows outside.old world.answers }
    ensures narrows_files { (world : World) → F.allows files.new world.files → F.allows files.old world.files }
{
    let mut reading = Reading::new(alloc);
    let mut place: usize = 0;
    while let Reached::Other(line, other, more) = next_other(
        alloc,
        progress,
        outside,
        file,
        &mut reading,
        lines,
        place,
    )? {
        place = lines.len() - more.len();
        let site = Site { file, line, levels };
        take(alloc, progress, outside, files, &site, &mut reading, other)?;
    }
    Ok(())
}

/// Takes a statement that says nothing of conditionals and variables.
#[cycle(reading)]
fn take<O: Outside, F: Files>(
    alloc: Global,
    progress: &mut Progress,
    outside: &mut O,
    files: &mut F,
    site: &Site<'_>,
    reading: &mut Reading,
    other: Other<'_>,
) -> Result<(), Refused>
    ensures told { (world : World) → O.allows outside.new world.answers → F.allows files.new world.files
        → OnOk result (Hands world (Named world site.now.levels) site.now.file.now site.now.line (here_of reading.old progress.old) (other_by other.entry)
        (Ok (here_of reading.new progress.new))) }
    ensures refused { (world : World) → O.allows outside.new world.answers → F.allows files.new world.files
        → IfErr result (IsRefused (λ why. Hands world (Named world site.now.levels) site.now.file.now site.now.line (here_of reading.old progress.old)
        (other_by other.entry) (Err why))) }
    ensures narrows { (world : World) → O.allows outside.new world.answers → O.allows outside.old world.answers }
    ensures narrows_files { (world : World) → F.allows files.new world.files → F.allows files.old world.files }
{
    match other {
        Other::Recipe(text) => {
            take_recipe(alloc, progress, site, text)?;
            Ok(())
        }
        Other::Includes(is_required, names) => {
            read_line(alloc, progress, outside, files, site, is_required, names)
        }
        Other::Vpath(text) => take_search(alloc, progress, outside, site, text),
        Other::Loads(_, _) => Err(refuse_line(alloc, site, Cause::Loads)),
        Other::Expands(text, recipe) => {
            let rule = take_line(alloc, progress, outside, site, text, recipe)?;
            reading.came_to(rule);
            Ok(())
        }
    }
}

/// Reads the files of an include line.
#[cycle(reading)]
fn read_line<O: Outside, F: Files>(
    alloc: Global,
    progress: &mut Progress,
    outside: &mut O,
    files: &mut F,
    site: &Site<'_>,
    is_required: bool,
    text: &[u8],
) -> Result<(), Refused>
    ensures told { (world : World) → O.allows outside.new world.answers → F.allows files.new world.files
        → OnOk result (Includes world (Named world site.now.levels) site.now.file.now site.now.line is_required text.now (progress_of progress.old)
        (Ok (progress_of progress.new))) }
    ensures refused { (world : World) → O.allows outside.new world.answers → F.allows files.new world.files
        → IfErr result (IsRefused (λ why. Includes world (Named world site.now.levels) site.now.file.now site.now.line is_required text.now
        (progress_of progress.old) (Err why))) }
    ensures narrows { (world : World) → O.allows outside.new world.answers → O.allows outside.old world.answers }
    ensures narrows_files { (world : World) → F.allows files.new world.files → F.allows files.old world.files }
{
    let value = value_of(alloc, &progress.table, outside, site, text)?;
    let names = included_names(alloc, outside, value.as_slice())?;
    read_each(alloc, progress, outside, files, site, is_required, &names)
}

/// Reads the files of these names, one behind the other.
#[cycle(reading)]
fn read_each<O: Outside, F: Files>(
    alloc: Global,
    progress: &mut Progress,
    outside: &mut O,
    files: &mut F,
    site: &Site<'_>,
    is_required: bool,
    names: &ByteStrings,
) -> Result<(), Refused>
    ensures told { (world : World) → O.allows outside.new world.answers → F.allows files.new world.files
        → OnOk result (Each (Named world site.now.levels site.now.file.now site.now.line is_required) names.now (progress_of progress.old)
        (Ok (progress_of progress.new))) }
    ensures refused { (world : World) → O.allows outside.new world.answers → F.allows files.new world.files
        → IfErr result (IsRefused (λ why. Each (Named world site.now.levels site.now.file.now site.now.line is_required) names.now
        (progress_of progress.old) (Err why))) }
    ensures narrows { (world : World) → O.allows outside.new world.answers → O.allows outside.old world.answers }
    ensures narrows_files { (world : World) → F.allows files.new world.files → F.allows files.old world.files }
{
    for name in names.iter() {
        read_named(alloc, progress, outside, files, site, is_required, name)?;
    }
    Ok(())
}

/// Reads the file of this name.
#[cycle(reading)]
fn read_named<O: Outside, F: Files>(
    alloc: Global,
    progress: &mut Progress,
    outside: &mut O,
    files: &mut F,
    site: &Site<'_>,
    is_required: bool,
    name: &[u8],
) -> Result<(), Refused>
    ensures told { (world : World) → O.allows outside.new world.answers → F.allows files.new world.files
        → OnOk result (Named world site.now.levels site.now.file.now site.now.line is_required name.now (progress_of progress.old)
        (Ok (progress_of progress.new))) }
    ensures refused { (world : World) → O.allows outside.new world.answers → F.allows files.new world.files
        → IfErr result (IsRefused (λ why. Named world site.now.levels site.now.file.now site.now.line is_required name.now
        (progress_of progress.old) (Err why))) }
    ensures narrows { (world : World) → O.allows outside.new world.answers → O.allows outside.old world.answers }
    ensures narrows_files { (world : World) → F.allows files.new world.files → F.allows files.old world.files }
{
    if site.levels == 0 {
        return Err(refuse_depth(alloc, site, name));
    }
    match files.read(alloc, name)? {
        Some(text) => {
            let levels = site.levels - 1;
            read_text(
                alloc,
                progress,
                outside,
                files,
                levels,
                name,
                text.as_slice(),
            )
        }
        None if is_required => Err(refuse_missing(alloc, site, name)),
        None => Ok(()),
    }
}

/// Reads a makefile's text, and the files that it includes in their places.
///
/// `file` is the name that items and faults give for the text itself, and `table` has the variables that there are before it is read. Of several faults
/// the first in the order of reading is answered. So it is in any world that agrees with what was answered.
pub fn read_makefile<O: Outside, F: Files>(
    alloc: Global,
    table: Table,
    outside: &mut O,
    files: &mut F,
    file: &[u8],
    text: &[u8],
) -> Result<Progress, Refused>
    ensures told { (world : World) → O.allows outside.new world.answers → F.allows files.new world.files
        → IfOk result (λ read. Text world (Named world depth) file.now text.now (record { table = table_of table; items = [] }) (Ok (progress_of read))) }
    ensures refused { (world : World) → O.allows outside.new world.answers → F.allows files.new world.files
        → IfErr result (IsRefused (λ why. Text world (Named world depth) file.now text.now (record { table = table_of table; items = [] }) (Err why))) }
    ensures narrows { (world : World) → O.allows outside.new world.answers → O.allows outside.old world.answers }
    ensures narrows_files { (world : World) → F.allows files.new world.files → F.allows files.old world.files }
{
    let items = Vec::new(alloc);
    let mut progress = Progress { table, items };
    read_text(
        alloc,
        &mut progress,
        outside,
        files,
        MAX_INCLUDE_DEPTH,
        file,
        text,
    )?;
    Ok(progress)
}
