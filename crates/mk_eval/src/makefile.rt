//! Evaluates a whole makefile, with the files that it includes, in one pass.
ghost use Rattle.std.specs.Prelude.{◌≡◌, ◌&&◌, [], IfOk};
ghost use Rattle.byte_strings.specs.Blanks.{words};
ghost use Rattle.mk_macros.specs.Ranks.{defined_by};
ghost use Rattle.mk_reader.specs.declared.item.Statement.TheVariants as statement;
ghost use Rattle.mk_eval.specs.Output.{World};
ghost use Rattle.mk_eval.specs.Makefile.{depth, behind, GivesItems, InOrder, StatementItems, IncludedItems, TextItems, unread_items};
ghost use Rattle.mk_profile.specs.Profile.{is_wide};
ghost use Rattle.mk_wildcards.specs.Pattern.{has_wildcard};

use crate::definition::{add_item, evaluate_definition};
use crate::includes::Includes;
use crate::judged::all_judged;
use crate::names::names_on;
use crate::refuse::refuse;
use crate::unmade::told_in;
use byte_strings::{ByteString, next_word};
use mk_macros::Macros;
use mk_profile::Profile;
use mk_reader::{Cause, Feature, IncludeLine, Item, ReadFault, Statement, statements_of};
use mk_wildcards::has_wildcard;
use std::alloc::Global;

/// How deep includes may be nested.
pub const MAX_INCLUDE_DEPTH: u8 = 16;

/// What the file of this name gives that can't be read.
fn missing(
    alloc: Global,
    profile: Profile,
    file: &[u8],
    include: &IncludeLine,
    name: &[u8],
) -> Result<Vec<Item>, ReadFault>
    ensures items { GivesItems result
        (λ outcome. outcome ≡ unread_items (is_wide profile && has_wildcard name.now) file.now include.now name.now) }
    ensures none { IfOk result (λ items. items.items ≡ []) }
{
    if profile.is_wide() && has_wildcard(name) {
        let cause = Cause::Unsupported(Feature::IncludeWildcard);
        return Err(refuse(alloc, file, include.line, cause));
    }
    if !include.is_required {
        return Ok(Vec::new(alloc));
    }
    let cause = Cause::IncludeMissing(ByteString::from_slice(alloc, name)?);
    Err(refuse(alloc, file, include.line, cause))
}

/// Evaluates one text. The first fault in the order of reading is answered.
#[cycle(evaluating)]
fn evaluate_text<I: Includes>(
    alloc: Global,
    levels: u8,
    file: &[u8],
    text: &[u8],
    macros: &mut Macros,
    includes: &mut I,
) -> Result<Vec<Item>, ReadFault>
    ensures items { (world : World) → I.allows includes.new world
        → GivesItems result (TextItems world levels (defined_by macros.old) file.now text.now) }
    ensures defined { IfOk result (λ items. defined_by macros.new ≡ behind (defined_by macros.old) items.items) }
    ensures grows { (world : World) → I.allows includes.new world → I.allows includes.old world }
{
    let profile = macros.profile();
    let statements = statements_of(alloc, profile, file, text)?;
    includes.see(alloc, profile, file, &statements);
    let taken = all_judged(alloc, profile, file, statements)?;
    match evaluate_all(alloc, levels, file, taken, macros, includes) {
        Ok(items) => Ok(items),
        Err(fault) => Err(told_in(alloc, profile, file, text, fault)),
    }
}

/// Evaluates the statements of a file, one after the other.
#[cycle(evaluating)]
fn evaluate_all<I: Includes>(
    alloc: Global,
    levels: u8,
    file: &[u8],
    statements: Vec<Statement>,
    macros: &mut Macros,
    includes: &mut I,
) -> Result<Vec<Item>, ReadFault>
    ensures items { (world : World) → I.allows includes.new world
        → GivesItems result (InOrder behind (StatementItems world (IncludedItems world levels file.now) file.now)
        (defined_by macros.old) statements.items) }
    ensures defined { IfOk result (λ items. defined_by macros.new ≡ behind (defined_by macros.old) items.items) }
    ensures grows { (world : World) → I.allows includes.new world → I.allows includes.old world }
{
    // Most statements give one item.
    let mut items = Vec::with_capacity(alloc, statements.len())?;
    for statement in statements {
        match statement {
            Statement::Item(item) => {
                add_item(alloc, item, macros, includes, &mut items)?;
            }
            Statement::Definition(line) => {
                let mut defined = evaluate_definition(alloc, line, macros, includes)?;
                items.append(&mut defined)?;
            }
            Statement::Include(include) => {
                let mut included = evaluate_line(alloc, levels, file, &include, macros, includes)?;
                items.append(&mut included)?;
            }
            Statement::Refused(refusal) => return Err(ReadFault::Refused(refusal)),
        }
    }
    Ok(items)
}

/// Evaluates an include line.
#[cycle(evaluating)]
fn evaluate_line<I: Includes>(
    alloc: Global,
    levels: u8,
    file: &[u8],
    include: &IncludeLine,
    macros: &mut Macros,
    includes: &mut I,
) -> Result<Vec<Item>, ReadFault>
    ensures items { (world : World) → I.allows includes.new world
        → GivesItems result (StatementItems world (IncludedItems world levels file.now) file.now
        (defined_by macros.old) (statement.Include include.now)) }
    ensures defined { IfOk result (λ items. defined_by macros.new ≡ behind (defined_by macros.old) items.items) }
    ensures grows { (world : World) → I.allows includes.new world → I.allows includes.old world }
{
    let names = names_on(alloc, file, include, macros)?;
    evaluate_each(
        alloc,
        levels,
        file,
        include,
        names.as_slice(),
        macros,
        includes,
    )
}

/// Evaluates the files of these names, which stand on an include line, one after the other.
#[cycle(evaluating)]
fn evaluate_each<I: Includes>(
    alloc: Global,
    levels: u8,
    file: &[u8],
    include: &IncludeLine,
    names: &[u8],
    macros: &mut Macros,
    includes: &mut I,
) -> Result<Vec<Item>, ReadFault>
    ensures items { (world : World) → I.allows includes.new world
        → GivesItems result (InOrder behind (IncludedItems world levels file.now include.now)
        (defined_by macros.old) (words names.now)) }
    ensures defined { IfOk result (λ items. defined_by macros.new ≡ behind (defined_by macros.old) items.items) }
    ensures grows { (world : World) → I.allows includes.new world → I.allows includes.old world }
{
    let mut items = Vec::new(alloc);
    let mut rest = names;
    while let Some((name, after)) = next_word(rest) {
        let mut included = evaluate_included(alloc, levels, file, include, name, macros, includes)?;
        items.append(&mut included)?;
        rest = after;
    }
    Ok(items)
}

/// Evaluates the file of this name, which stands on an include line.
#[cycle(evaluating)]
fn evaluate_included<I: Includes>(
    alloc: Global,
    levels: u8,
    file: &[u8],
    include: &IncludeLine,
    name: &[u8],
    macros: &mut Macros,
    includes: &mut I,
) -> Result<Vec<Item>, ReadFault>
    ensures items { (world : World) → I.allows includes.new world
        → GivesItems result (IncludedItems world levels file.now include.now (defined_by macros.old) name.now) }
    ensures defined { IfOk result (λ items. defined_by macros.new ≡ behind (defined_by macros.old) items.items) }
    ensures grows { (world : World) → I.allows includes.new world → I.allows includes.old world }
{
    if levels == 0 {
        return Err(refuse(alloc, file, include.line, Cause::IncludeDepth));
    }
    match includes.read(alloc, name)? {
        None => missing(alloc, macros.profile(), file, include, name),
        Some(text) => evaluate_text(alloc, levels - 1, name, text.as_slice(), macros, includes),
    }
}

/// The items of a makefile's text, in order; included files are read in their place.
///
/// `file` is the name that items and faults give for the text itself, and `macros` has what is defined before it is read,
/// and its language; afterwards it has what counts for a text behind it. Of several faults the first in the order of reading
/// is answered, and an `Err` gives no items. So it is in any world that agrees with what was answered.
pub fn read_makefile<I: Includes>(
    alloc: Global,
    macros: &mut Macros,
    file: &[u8],
    bytes: &[u8],
    includes: &mut I,
) -> Result<Vec<Item>, ReadFault>
    ensures items { (world : World) → I.allows includes.new world
        → GivesItems result (TextItems world depth (defined_by macros.old) file.now bytes.now) }
    ensures defined { IfOk result (λ items. defined_by macros.new ≡ behind (defined_by macros.old) items.items) }
    ensures grows { (world : World) → I.allows includes.new world → I.allows includes.old world }
{
    evaluate_text(alloc, MAX_INCLUDE_DEPTH, file, bytes, macros, includes)
}
