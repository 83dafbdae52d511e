//! What -p prints: macros and rules as they were read, and where they stand.
ghost use Rattle.std.specs.Prelude.{◌≡◌, ◌++◌, ℕ, List, Option, codes, map, IfOk, OnOk};
ghost use Rattle.std.specs.List.{flat_map};
ghost use Rattle.mk_reader.specs.declared.item.Item.{Item as MakefileItem};
ghost use Rattle.dmk_reading.specs.Base.{origin_line, place_line, equals, macro_line, definition_text, colons, target_line, recipe_line, rule_text, item_text, variable_text, base_text};
ghost use Rattle.dmk_reading.specs.Definitions.{first_defined, variable, tool_macros, environment_macros};
ghost use Rattle.dmk_reading.specs.Planned.{AreItems};
ghost use Rattle.mk_eval.specs.Output.{World};
ghost use Rattle.mk_nodes.specs.declared.file_look.FileLook.{FileLook};

use crate::definitions::table;
use crate::makefile::items_of;
use crate::makefiles::Makefiles;
use bd_lists::Variable;
use dmk_messages::Fault;
use mk_eval::Includes;
use mk_profile::Profile;
use mk_reader::{Definition, Item, RecipeLine, Rule};
use mk_rules::Tree;
use std::alloc::{AllocError, Global};

fn append_origin(text: &mut Vec<u8>, origin: &[u8]) -> Result<(), AllocError>
    ensures { OnOk result (text.new.items ≡ text.old.items ++ origin_line origin.now) }
{
    text.extend_from_slice(b"# ")?;
    text.extend_from_slice(origin)?;
    text.push(b'\n')?;
    Ok(())
}

fn append_place(
    alloc: Global,
    text: &mut Vec<u8>,
    file: &[u8],
    line: usize,
) -> Result<(), AllocError>
    ensures { OnOk result (text.new.items ≡ text.old.items ++ place_line file.now line) }
{
    let number = format!(in alloc; ":{line}")?;
    text.extend_from_slice(b"# ")?;
    text.extend_from_slice(file)?;
    text.extend_from_slice(number.as_bytes())?;
    text.push(b'\n')?;
    Ok(())
}

fn equals(append: bool) -> &'static [u8]
    ensures { result.now ≡ equals append }
{
    if append { b" += " } else { b" = " }
}

fn append_macro(
    text: &mut Vec<u8>,
    name: &[u8],
    sign: &[u8],
    value: &[u8],
) -> Result<(), AllocError>
    ensures { OnOk result (text.new.items ≡ text.old.items ++ macro_line name.now sign.now value.now) }
{
    text.extend_from_slice(name)?;
    text.extend_from_slice(sign)?;
    text.extend_from_slice(value)?;
    text.push(b'\n')?;
    Ok(())
}

fn append_definition(
    alloc: Global,
    text: &mut Vec<u8>,
    definition: &Definition,
) -> Result<(), AllocError>
    ensures { OnOk result (text.new.items ≡ text.old.items ++ definition_text definition.now) }
{
    append_place(alloc, text, definition.file.as_slice(), definition.line)?;
    let name = definition.name.as_slice();
    append_macro(
        text,
        name,
        equals(definition.append),
        definition.value.as_slice(),
    )
}

fn colons(is_double: bool) -> &'static [u8]
    ensures { result.now ≡ colons is_double }
{
    if is_double { b"::" } else { b":" }
}

fn append_target_line(
    text: &mut Vec<u8>,
    is_double: bool,
    targets: &[u8],
    prerequisites: &[u8],
) -> Result<(), AllocError>
    ensures { OnOk result (text.new.items ≡ text.old.items ++ target_line is_double targets.now prerequisites.now) }
{
    text.extend_from_slice(targets)?;
    text.extend_from_slice(colons(is_double))?;
    if !prerequisites.is_empty() {
        text.push(b' ')?;
        text.extend_from_slice(prerequisites)?;
    }
    text.push(b'\n')?;
    Ok(())
}

fn append_recipe(text: &mut Vec<u8>, lines: &[RecipeLine]) -> Result<(), AllocError>
    ensures { OnOk result (text.new.items ≡ text.old.items ++ flat_map recipe_line lines.now) }
{
    for line in lines {
        text.push(b'\t')?;
        text.extend_from_slice(line.text.as_slice())?;
        text.push(b'\n')?;
    }
    Ok(())
}

fn append_rule(alloc: Global, text: &mut Vec<u8>, rule: &Rule) -> Result<(), AllocError>
    ensures { OnOk result (text.new.items ≡ text.old.items ++ rule_text rule.now) }
{
    append_place(alloc, text, rule.file.as_slice(), rule.line)?;
    append_target_line(
        text,
        rule.is_double,
        rule.targets.as_slice(),
        rule.prerequisites.as_slice(),
    )?;
    append_recipe(text, rule.recipe.lines())
}

fn append_item(alloc: Global, text: &mut Vec<u8>, item: &Item) -> Result<(), AllocError>
    ensures { OnOk result (text.new.items ≡ text.old.items ++ item_text item.now) }
{
    match item {
        Item::Definition(definition) => append_definition(alloc, text, definition),
        Item::Rule(rule) => append_rule(alloc, text, rule),
        Item::Special(special) => append_rule(alloc, text, &special.rule),
    }
}

fn append_items(alloc: Global, text: &mut Vec<u8>, items: &[Item]) -> Result<(), AllocError>
    ensures { OnOk result (text.new.items ≡ text.old.items ++ flat_map item_text items.now) }
{
    for item in items {
        append_item(alloc, text, item)?;
    }
    Ok(())
}

fn append_variable(
    text: &mut Vec<u8>,
    origin: &[u8],
    name: &[u8],
    value: &[u8],
) -> Result<(), AllocError>
    ensures { OnOk result (text.new.items ≡ text.old.items ++ variable_text origin.now (record { name = name.now; value = value.now })) }
{
    append_origin(text, origin)?;
    append_macro(text, name, b" = ", value)
}

fn append_variables(
    text: &mut Vec<u8>,
    origin: &[u8],
    variables: &[Variable],
) -> Result<(), AllocError>
    ensures { OnOk result (text.new.items ≡ text.old.items ++ flat_map (variable_text origin.now) variables.now) }
{
    for variable in variables {
        let name = variable.name.as_slice();
        append_variable(text, origin, name, variable.value.as_slice())?;
    }
    Ok(())
}

/// Appends what is defined by a table of the tool's.
fn append_table(text: &mut Vec<u8>, table: &[(&[u8], &[u8])]) -> Result<(), AllocError>
    ensures { OnOk result (text.new.items ≡ text.old.items
        ++ flat_map (variable_text (codes "default")) (map (λ entry. variable entry.0.now entry.1.now) table.now)) }
{
    for entry in table {
        append_variable(text, b"default", entry.0, entry.1)?;
    }
    Ok(())
}

/// Appends what the environment gives a makefile in this language.
fn append_environment(
    text: &mut Vec<u8>,
    profile: Profile,
    environment: &[Variable],
) -> Result<(), AllocError>
    ensures { OnOk result (text.new.items ≡ text.old.items
        ++ flat_map (variable_text (codes "environment")) (environment_macros profile environment.now)) }
{
    append_variables(text, b"environment", environment)?;
    if profile.is_wide() {
        append_variable(text, b"environment", b"SHELL", b"/bin/sh")?;
    }
    Ok(())
}

/// All that is printed of these items and of what is defined before them.
fn text_of(
    alloc: Global,
    profile: Profile,
    definitions: &[Variable],
    environment: &[Variable],
    items: &[Item],
) -> Result<Vec<u8>, AllocError>
    ensures { IfOk result (λ text. text.items ≡ base_text profile definitions.now environment.now items.now) }
{
    let mut text = Vec::new(alloc);
    append_table(&mut text, table(profile, environment))?;
    append_environment(&mut text, profile, environment)?;
    append_variables(&mut text, b"command line", definitions)?;
    append_items(alloc, &mut text, items)?;
    Ok(text)
}

/// What -p prints of the makefiles that are named, or of the usual one. A fault of theirs is told by who makes them.
pub fn base_of<T: Tree, I: Includes>(
    alloc: Global,
    profile: Profile,
    definitions: &[Variable],
    environment: &[Variable],
    makefiles: &Makefiles,
    tree: &mut T,
    includes: &mut I,
) -> Result<Vec<u8>, Fault>
    ensures { IfOk result (λ text. (world : World) (looks : List ℕ → Option FileLook) → I.allows includes.new world → T.allows tree.new looks
        → (items : List MakefileItem) × AreItems world looks makefiles.now (first_defined profile definitions.now environment.now) items
        × (text.items ≡ base_text profile definitions.now environment.now items)) }
{
    let items = items_of(
        alloc,
        profile,
        definitions,
        environment,
        makefiles,
        tree,
        includes,
    )?;
    Ok(text_of(alloc, profile, definitions, environment, &items)?)
}
