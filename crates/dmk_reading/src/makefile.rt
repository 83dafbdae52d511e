//! The makefiles: which files they are, and their items.
ghost use Rattle.std.specs.Prelude.{◌≡◌, ◌≢◌, ◌++◌, ℕ, List, Option, None, [], Ok, IfOk, IfErr, IfSome, IsTrue, option_map, false};
ghost use Rattle.mk_macros.specs.Ranks.{Defined, defined_by};
ghost use Rattle.mk_eval.specs.Output.{World};
ghost use Rattle.mk_eval.specs.Makefile.{behind};
ghost use Rattle.dmk_reading.specs.Definitions.{first_defined};
ghost use Rattle.dmk_reading.specs.Makefile.{MayBeThere, IsUsualMakefile, NamedItems, AllItems};
ghost use Rattle.dmk_reading.specs.BuiltIn.{AreRules};
ghost use Rattle.dmk_reading.specs.OldRules.{AreLeft};
ghost use Rattle.dmk_reading.specs.Planned.{AreItems, AreAllItems, AreOwnItems};
ghost use Rattle.dmk_reading.specs.Faults.{IsTextFault, IsOwnFault, IsFaultOfRules, IsFaultOfOne, IsFaultAmong};
ghost use Rattle.dmk_messages.specs.declared.fault.Fault.TheVariants.{OutOfMemory, NoMakefile};
ghost use Rattle.mk_nodes.specs.declared.file_look.FileLook.{FileLook};

use crate::built_in::{reads_rules, rules_before};
use crate::definitions::first_macros;
use crate::makefiles::Makefiles;
use crate::old_rules::left_items;
use crate::own_rules::standing_rules;
use bd_lists::Variable;
use byte_strings::{ByteString, ByteStrings};
use dmk_messages::Fault;
use mk_eval::{Includes, read_makefile};
use mk_macros::Macros;
use mk_profile::Profile;
use mk_reader::Item;
use mk_rules::{Tree, TreeFault};
use std::alloc::{AllocError, Global};
use std::rc::Rc;

const FIRST_NAME: &[u8] = b"makefile";

const SECOND_NAME: &[u8] = b"Makefile";

/// A makefile that was read. `file` is the name that its faults give.
struct Makefile {
    file: ByteString,
    text: Rc<Vec<u8>>,
}

impl Drop for Makefile {
    fn drop(self) {
        let Makefile { file: _, text: _ } = self;
    }
}

/// The file of this name as the makefile.
fn file_named<I: Includes>(
    alloc: Global,
    name: &[u8],
    includes: &mut I,
) -> Result<Option<Makefile>, Fault>
    ensures read { IfOk result (λ found. (world : World) → I.allows includes.new world
        → world.files name.now ≡ option_map (λ m. m.text.value.items) found) }
    ensures name { IfOk result (λ found. IfSome found (λ m. m.file ≡ name.now)) }
    ensures files { (world : World) → I.allows includes.new world → I.allows includes.old world }
    ensures fault { IfErr result (λ fault. fault ≡ OutOfMemory) }
{
    match includes.read(alloc, name)? {
        Some(text) => Ok(Some(Makefile {
            file: ByteString::from_slice(alloc, name)?,
            text,
        })),
        None => Ok(None),
    }
}

/// Whether there is no file of this name, not even one that can't be read.
fn is_absent<T: Tree>(alloc: Global, name: &[u8], tree: &mut T) -> Result<bool, Fault>
    ensures absent { IfOk result (λ absent. IsTrue absent → (looks : List ℕ → Option FileLook) → T.allows tree.new looks → looks name.now ≡ None) }
    ensures there { IfOk result (λ absent. absent ≡ false → (looks : List ℕ → Option FileLook) → T.allows tree.new looks
        → MayBeThere looks (T.refuses tree.new) name.now) }
    ensures looks { (looks : List ℕ → Option FileLook) → T.allows tree.new looks → T.allows tree.old looks }
    ensures kept { (n : List ℕ) → T.refuses tree.old n → T.refuses tree.new n }
    ensures fault { IfErr result (λ fault. fault ≡ OutOfMemory) }
{
    match tree.stamp(alloc, name) {
        Ok(stamp) => Ok(stamp.is_none()),
        Err(TreeFault::CannotLook) => Ok(false),
        Err(TreeFault::OutOfMemory) => Err(Fault::OutOfMemory),
    }
}

/// The makefile where none is named.
fn usual_makefile<T: Tree, I: Includes>(
    alloc: Global,
    tree: &mut T,
    includes: &mut I,
) -> Result<Makefile, Fault>
    ensures makefile { IfOk result (λ m. (world : World) (looks : List ℕ → Option FileLook) → I.allows includes.new world → T.allows tree.new looks
        → IsUsualMakefile world looks m.file m.text.value.items) }
    ensures fault { IfErr result (λ fault. (world : World) (looks : List ℕ → Option FileLook) (given : Defined) → I.allows includes.new world → T.allows tree.new looks
        → IsOwnFault world looks (T.refuses tree.new) [] given fault) }
    ensures files { (world : World) → I.allows includes.new world → I.allows includes.old world }
    ensures looks { (looks : List ℕ → Option FileLook) → T.allows tree.new looks → T.allows tree.old looks }
    ensures kept { (n : List ℕ) → T.refuses tree.old n → T.refuses tree.new n }
{
    if let Some(makefile) = file_named(alloc, FIRST_NAME, includes)? {
        return Ok(makefile);
    }
    if !is_absent(alloc, FIRST_NAME, tree)? {
        return Err(Fault::NoMakefile);
    }
    match file_named(alloc, SECOND_NAME, includes)? {
        Some(makefile) => Ok(makefile),
        None => Err(Fault::NoMakefile),
    }
}

/// The items of the makefile where none is named.
fn usual_items<T: Tree, I: Includes>(
    alloc: Global,
    macros: &mut Macros,
    tree: &mut T,
    includes: &mut I,
) -> Result<Vec<Item>, Fault>
    ensures items { IfOk result (λ items. (world : World) (looks : List ℕ → Option FileLook) → I.allows includes.new world → T.allows tree.new looks
        → AreOwnItems world looks [] (defined_by macros.old) items.items) }
    ensures fault { IfErr result (λ fault. (world : World) (looks : List ℕ → Option FileLook) → I.allows includes.new world → T.allows tree.new looks
        → IsOwnFault world looks (T.refuses tree.new) [] (defined_by macros.old) fault) }
    ensures looks { (looks : List ℕ → Option FileLook) → T.allows tree.new looks → T.allows tree.old looks }
    ensures kept { (n : List ℕ) → T.refuses tree.old n → T.refuses tree.new n }
{
    let makefile = usual_makefile(alloc, tree, includes)?;
    let file = makefile.file.as_slice();
    match read_makefile(alloc, macros, file, makefile.text.as_slice(), includes) {
        Ok(items) => Ok(items),
        Err(fault) => Err(Fault::Read(fault)),
    }
}

/// The items of the makefile of this name.
fn items_named<I: Includes>(
    alloc: Global,
    macros: &mut Macros,
    name: &[u8],
    includes: &mut I,
) -> Result<Vec<Item>, Fault>
    ensures items { IfOk result (λ items. (world : World) → I.allows includes.new world
        → NamedItems world (defined_by macros.old) name.now (Ok items.items)) }
    ensures defined { IfOk result (λ items. defined_by macros.new ≡ behind (defined_by macros.old) items.items) }
    ensures fault { IfErr result (λ fault. (world : World) → I.allows includes.new world
        → IsFaultOfOne world (defined_by macros.old) name.now fault) }
    ensures grows { (world : World) → I.allows includes.new world → I.allows includes.old world }
{
    let Some(text) = includes.read(alloc, name)? else {
        return Err(Fault::NoMakefile);
    };
    match read_makefile(alloc, macros, name, text.as_slice(), includes) {
        Ok(items) => Ok(items),
        Err(fault) => Err(Fault::Read(fault)),
    }
}

/// The items of the makefiles of these names, one behind the other.
fn all_items<I: Includes>(
    alloc: Global,
    macros: &mut Macros,
    names: &ByteStrings,
    includes: &mut I,
) -> Result<Vec<Item>, Fault>
    ensures items { IfOk result (λ items. (world : World) → I.allows includes.new world
        → AllItems world (defined_by macros.old) names.now (Ok items.items)) }
    ensures fault { IfErr result (λ fault. (world : World) → I.allows includes.new world
        → IsFaultAmong world (defined_by macros.old) names.now fault) }
{
    let mut items = Vec::new(alloc);
    for name in names.iter() {
        let mut more = items_named(alloc, macros, name, includes)?;
        items.append(&mut more)?;
    }
    Ok(items)
}

/// The items of the makefiles that are named, one behind the other, or else of the usual one, and of all files that they
/// include, in this language.
fn own_items<T: Tree, I: Includes>(
    alloc: Global,
    profile: Profile,
    definitions: &[Variable],
    environment: &[Variable],
    named: &ByteStrings,
    tree: &mut T,
    includes: &mut I,
) -> Result<Vec<Item>, Fault>
    ensures items { IfOk result (λ items. (world : World) (looks : List ℕ → Option FileLook) → I.allows includes.new world → T.allows tree.new looks
        → AreOwnItems world looks named.now (first_defined profile definitions.now environment.now) items.items) }
    ensures fault { IfErr result (λ fault. (world : World) (looks : List ℕ → Option FileLook) → I.allows includes.new world → T.allows tree.new looks
        → IsOwnFault world looks (T.refuses tree.new) named.now (first_defined profile definitions.now environment.now) fault) }
    ensures looks { (looks : List ℕ → Option FileLook) → T.allows tree.new looks → T.allows tree.old looks }
    ensures kept { (n : List ℕ) → T.refuses tree.old n → T.refuses tree.new n }
{
    let mut macros = first_macros(alloc, profile, definitions, environment)?;
    if named.is_empty() {
        usual_items(alloc, &mut macros, tree, includes)
    } else {
        all_items(alloc, &mut macros, named, includes)
    }
}

/// The items of a makefile behind those of the rules that are built in.
fn behind_rules<I: Includes>(
    alloc: Global,
    profile: Profile,
    definitions: &[Variable],
    environment: &[Variable],
    own: Vec<Item>,
    includes: &mut I,
) -> Result<Vec<Item>, Fault>
    ensures items { IfOk result (λ items. (world : World) → I.allows includes.new world
        → (rules : List Item) × AreRules world (first_defined profile definitions.now environment.now) own.items (Ok rules)
        × (items.items ≡ rules ++ own.items)) }
    ensures fault { IfErr result (λ fault. (world : World) → I.allows includes.new world
        → IsFaultOfRules world (first_defined profile definitions.now environment.now) own.items fault) }
    ensures grows { (world : World) → I.allows includes.new world → I.allows includes.old world }
{
    let mut above = first_macros(alloc, profile, definitions, environment)?;
    let rules = standing_rules(alloc, &mut above, own.as_slice())?;
    drop(above);
    let mut macros = first_macros(alloc, profile, definitions, environment)?;
    let mut own = own;
    match rules_before(alloc, &mut macros, &rules, includes) {
        Ok(mut items) => {
            items.append(&mut own)?;
            Ok(items)
        }
        Err(fault) => Err(Fault::Read(fault)),
    }
}

/// All items of the makefiles in this language, behind the tool's rules where these are read.
fn read_items<T: Tree, I: Includes>(
    alloc: Global,
    profile: Profile,
    definitions: &[Variable],
    environment: &[Variable],
    makefiles: &Makefiles,
    tree: &mut T,
    includes: &mut I,
) -> Result<Vec<Item>, Fault>
    ensures items { IfOk result (λ items. (world : World) (looks : List ℕ → Option FileLook) → I.allows includes.new world → T.allows tree.new looks
        → AreAllItems world looks makefiles.now (first_defined profile definitions.now environment.now) items.items) }
    ensures fault { IfErr result (λ fault. (world : World) (looks : List ℕ → Option FileLook) → I.allows includes.new world → T.allows tree.new looks
        → IsTextFault world looks (T.refuses tree.new) makefiles.now (first_defined profile definitions.now environment.now) fault) }
    ensures looks { (looks : List ℕ → Option FileLook) → T.allows tree.new looks → T.allows tree.old looks }
    ensures kept { (n : List ℕ) → T.refuses tree.old n → T.refuses tree.new n }
{
    let named = &makefiles.named;
    let own = own_items(
        alloc,
        profile,
        definitions,
        environment,
        named,
        tree,
        includes,
    )?;
    if reads_rules(makefiles, profile) {
        behind_rules(alloc, profile, definitions, environment, own, includes)
    } else {
        Ok(own)
    }
}

/// What counts of items where the rules of these names are ignored.
fn items_without(
    alloc: Global,
    profile: Profile,
    definitions: &[Variable],
    environment: &[Variable],
    old: &ByteStrings,
    items: Vec<Item>,
) -> Result<Vec<Item>, AllocError>
    ensures none { IfOk result (λ left. old.now ≡ [] → left.items ≡ items.items) }
    ensures some { IfOk result (λ left. old.now ≢ [] → AreLeft old.now (first_defined profile definitions.now environment.now) items.items left.items) }
{
    if old.is_empty() {
        return Ok(items);
    }
    let mut macros = first_macros(alloc, profile, definitions, environment)?;
    left_items(alloc, old, &mut macros, items)
}

/// All items that count before names are made, in this language: those of the makefiles, behind the tool's rules where these are
/// read, without the rules of files that are taken as old.
pub fn items_of<T: Tree, I: Includes>(
    alloc: Global,
    profile: Profile,
    definitions: &[Variable],
    environment: &[Variable],
    makefiles: &Makefiles,
    tree: &mut T,
    includes: &mut I,
) -> Result<Vec<Item>, Fault>
    ensures items { IfOk result (λ items. (world : World) (looks : List ℕ → Option FileLook) → I.allows includes.new world → T.allows tree.new looks
        → AreItems world looks makefiles.now (first_defined profile definitions.now environment.now) items.items) }
    ensures fault { IfErr result (λ fault. (world : World) (looks : List ℕ → Option FileLook) → I.allows includes.new world → T.allows tree.new looks
        → IsTextFault world looks (T.refuses tree.new) makefiles.now (first_defined profile definitions.now environment.now) fault) }
    ensures looks { (looks : List ℕ → Option FileLook) → T.allows tree.new looks → T.allows tree.old looks }
    ensures kept { (n : List ℕ) → T.refuses tree.old n → T.refuses tree.new n }
{
    let items = read_items(
        alloc,
        profile,
        definitions,
        environment,
        makefiles,
        tree,
        includes,
    )?;
    let old = &makefiles.old;
    let left = items_without(alloc, profile, definitions, environment, old, items)?;
    Ok(left)
}
