//! What reaches recipes.
ghost use Rattle.std.specs.Prelude.{◌≡◌, Ok, map, IfOk, IfErr, option_map};
ghost use Rattle.mk_functions.specs.Values.{Answers};
ghost use Rattle.mk_variables.specs.Exports.{is_digit, is_name_byte, is_shell_name, passed_from, is_passed, taken_for, IsPassedAs, Passes};
ghost use Rattle.mk_variables.specs.Shown.{entry_of, shown_passed, IsNotPassed, PassesNone};

use crate::entry::{Entry, Sharing};
use crate::table::Table;
use crate::value::{Taken, value_of};
use mk_functions::{Definitions, Flavor, Origin, Outside, Stop};
use std::alloc::Global;

/// A variable of a recipe's environment.
#[derive(Drop)]
pub struct Passed<'a> {
    pub name: &'a [u8],
    pub value: Vec<u8>,
}

fn is_digit(byte: u8) -> bool
    ensures { result ≡ is_digit byte }
{
    b'0' <= byte && byte <= b'9'
}

fn is_name_byte(byte: u8) -> bool
    ensures { result ≡ is_name_byte byte }
{
    (b'A' <= byte && byte <= b'Z')
        || (b'a' <= byte && byte <= b'z')
        || is_digit(byte)
        || byte == b'_'
}

/// Whether a shell can refer to a variable of this name.
fn is_shell_name(name: &[u8]) -> bool
    ensures { result ≡ is_shell_name name.now }
{
    let Some(first) = name.first() else {
        return false;
    };
    if is_digit(*first) {
        return false;
    }
    for byte in name {
        if !is_name_byte(*byte) {
            return false;
        }
    }
    true
}

fn passed_from(exports_all: bool, origin: Origin) -> bool
    ensures { result ≡ passed_from exports_all origin }
{
    match origin {
        Origin::Default | Origin::Automatic => false,
        Origin::Environment | Origin::EnvironmentOverride | Origin::CommandLine => true,
        Origin::File | Origin::Override => exports_all,
    }
}

fn is_passed(exports_all: bool, name: &[u8], entry: &Entry) -> bool
    ensures { result ≡ is_passed exports_all name.now (entry_of entry.now) }
{
    match entry.sharing() {
        Sharing::Exported => true,
        Sharing::Unexported => false,
        Sharing::Unsaid => passed_from(exports_all, entry.origin()) && is_shell_name(name),
    }
}

fn taken_for(flavor: Flavor, origin: Origin) -> Taken
    ensures { result ≡ taken_for flavor origin }
{
    match flavor {
        Flavor::Simple => Taken::AsWritten,
        Flavor::Recursive => match origin {
            Origin::Environment | Origin::EnvironmentOverride => Taken::AsWritten,
            Origin::Default
            | Origin::File
            | Origin::CommandLine
            | Origin::Override
            | Origin::Automatic => Taken::Expanded,
        },
    }
}

/// The value with which a variable reaches recipes, if it does.
fn passed_value<V: Definitions, O: Outside>(
    alloc: Global,
    variables: &V,
    outside: &mut O,
    exports_all: bool,
    name: &[u8],
    entry: &Entry,
) -> Result<Option<Vec<u8>>, Stop>
    ensures told { (w : Answers) → O.allows outside.new w
        → IfOk result (λ value. IsPassedAs w (V.variables variables.now) exports_all name.now (entry_of entry.now) (option_map (λ v. v.items) value)) }
    ensures refused { (w : Answers) → O.allows outside.new w
        → IfErr result (IsNotPassed w (V.variables variables.now) exports_all name.now (entry_of entry.now)) }
    ensures narrows { (w : Answers) → O.allows outside.new w → O.allows outside.old w }
{
    if !is_passed(exports_all, name, entry) {
        return Ok(None);
    }
    let variable = entry.variable();
    let taken = taken_for(variable.flavor, variable.origin);
    let value = value_of(alloc, variables, outside, taken, variable.text)?;
    Ok(Some(value))
}

impl Table {
    /// The variables that reach a recipe, with what names stand for there.
    pub fn environment<'a, V: Definitions, O: Outside>(
        &'a self,
        alloc: Global,
        variables: &V,
        outside: &mut O,
    ) -> Result<Vec<Passed<'a>>, Stop>
        ensures told { (w : Answers) → O.allows outside.new w
            → IfOk result (λ passed. Passes w (V.variables variables.now) self.now.exports_all self.now.entries (Ok (map shown_passed passed.items))) }
        ensures refused { (w : Answers) → O.allows outside.new w
            → IfErr result (PassesNone w (V.variables variables.now) self.now.exports_all self.now.entries) }
        ensures narrows { (w : Answers) → O.allows outside.new w → O.allows outside.old w }
    {
        let exports_all = self.exports_all();
        let mut passed: Vec<Passed<'a>> = Vec::new(alloc);
        for (name, entry) in self.entries().iter() {
            let name = name.as_slice();
            let found = passed_value(alloc, variables, outside, exports_all, name, entry)?;
            match found {
                None => {}
                Some(value) => passed.push(Passed { name, value })?,
            }
        }
        Ok(passed)
    }
}
