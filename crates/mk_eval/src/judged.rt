//! Statements that the wide profile refuses by name.
ghost use Rattle.std.specs.Prelude.{◌≡◌, map, IfOk};
ghost use Rattle.byte_strings.specs.Blanks.{words};
ghost use Rattle.mk_profile.specs.Profile.{is_wide};
ghost use Rattle.mk_reader.specs.Special.{special_name};
ghost use Rattle.mk_short_names.specs.Short.{short_name};
ghost use Rattle.mk_profile.specs.declared.profile.Profile.TheVariants.{Posix};
ghost use Rattle.mk_eval.specs.Judged.{searches, changes_recipes, macro_refused, definition_refused, opens_vpath, refused_name, refused_among, rule_refused, item_refused, statement_refused, at_line, judged, all_judged};

use byte_strings::{ByteString, first_word, next_word};
use mk_lines::ends_with;
use mk_profile::Profile;
use mk_reader::{
    Cause, Definition, Directive, Feature, Item, Refusal, Rule, SpecialName, Statement, is_refused,
    special_name,
};
use mk_short_names::short_name;
use std::alloc::{AllocError, Global};

/// Whether a text of `VPATH` has files looked for elsewhere. `.` says nothing.
fn searches(text: &[u8]) -> bool
    ensures { result ≡ searches text.now }
{
    !(text.is_empty() || text == b".".as_slice())
}

/// Whether other lines are recipe lines behind this definition.
fn changes_recipes(name: &[u8], text: &[u8]) -> bool
    ensures { result ≡ changes_recipes name.now text.now }
{
    name == b".RECIPEPREFIX".as_slice() && !text.is_empty()
}

/// Whether the definition of a macro with this text is refused, in a makefile as on the command line.
pub fn macro_refused(name: &[u8], text: &[u8]) -> Option<Feature>
    ensures { result ≡ macro_refused name.now text.now }
{
    if name == b".SHELLFLAGS".as_slice() {
        return Some(Feature::ShellFlags);
    }
    if name == b"VPATH".as_slice() && searches(text) {
        return Some(Feature::SearchPath);
    }
    if changes_recipes(name, text) {
        return Some(Feature::RecipePrefix);
    }
    None
}

fn definition_refused(definition: &Definition) -> Option<Feature>
    ensures { result ≡ definition_refused definition.now }
{
    macro_refused(definition.name.as_slice(), definition.value.as_slice())
}

/// Whether the line is one of `vpath`, though a `:` stands in it.
fn opens_vpath(targets: &[u8]) -> bool
    ensures { result ≡ opens_vpath targets.now }
{
    let word = first_word(targets);
    word == b"vpath".as_slice() && word.len() < targets.len()
}

/// The special name that this word is without a `./` in front, where the wide profile refuses it.
fn refused_name(word: &[u8]) -> Option<SpecialName>
    ensures { result ≡ refused_name (special_name Posix (short_name word.now)) }
{
    match special_name(Profile::Posix, short_name(word)) {
        Some(name) => {
            if is_refused(Profile::Posix, name) {
                Some(name)
            } else {
                None
            }
        }
        None => None,
    }
}

/// The first such name among the targets of a line.
fn refused_among(targets: &[u8]) -> Option<Feature>
    ensures { result ≡ refused_among (words targets.now) }
{
    let mut rest = targets;
    while let Some((word, behind)) = next_word(rest) {
        if let Some(name) = refused_name(word) {
            return Some(Feature::SpecialName(name));
        }
        rest = behind;
    }
    None
}

fn rule_refused(rule: &Rule) -> Option<Feature>
    ensures { result ≡ rule_refused rule.now }
{
    let targets = rule.targets.as_slice();
    if ends_with(targets, b'&') {
        return Some(Feature::GroupedTargets);
    }
    if opens_vpath(targets) {
        return Some(Feature::Directive(Directive::Vpath));
    }
    refused_among(targets)
}

fn at_line(line: usize, feature: Option<Feature>) -> Option<(usize, Feature)>
    ensures { result ≡ at_line line feature }
{
    match feature {
        Some(feature) => Some((line, feature)),
        None => None,
    }
}

fn item_refused(item: &Item) -> Option<(usize, Feature)>
    ensures { result ≡ item_refused item.now }
{
    match item {
        Item::Definition(definition) => at_line(definition.line, definition_refused(definition)),
        Item::Rule(rule) => at_line(rule.line, rule_refused(rule)),
        Item::Special(special) => {
            let rule = &special.rule;
            at_line(rule.line, refused_among(rule.targets.as_slice()))
        }
    }
}

/// What of the statement is refused, with the number of its line.
fn statement_refused(statement: &Statement) -> Option<(usize, Feature)>
    ensures { result ≡ statement_refused statement.now }
{
    match statement {
        Statement::Item(item) => item_refused(item),
        Statement::Definition(line) => {
            let definition = &line.definition;
            at_line(definition.line, definition_refused(definition))
        }
        Statement::Include(_) | Statement::Refused(_) => None,
    }
}

fn judged(
    alloc: Global,
    profile: Profile,
    file: &[u8],
    statement: Statement,
) -> Result<Statement, AllocError>
    ensures { IfOk result (λ said. said ≡ judged (is_wide profile) file.now statement) }
{
    if !profile.is_wide() {
        return Ok(statement);
    }
    match statement_refused(&statement) {
        None => Ok(statement),
        Some((line, feature)) => Ok(Statement::Refused(Refusal {
            file: ByteString::from_slice(alloc, file)?,
            line,
            cause: Cause::Unsupported(feature),
        })),
    }
}

/// The statements of a file, each of them refused that the wide profile refuses by name.
pub fn all_judged(
    alloc: Global,
    profile: Profile,
    file: &[u8],
    statements: Vec<Statement>,
) -> Result<Vec<Statement>, AllocError>
    ensures { IfOk result (λ v. v.items ≡ all_judged (is_wide profile) file.now statements.items) }
{
    let mut taken = Vec::with_capacity(alloc, statements.len())?;
    for statement in statements {
        let said = judged(alloc, profile, file, statement)?;
        taken.push(said)?;
    }
    Ok(taken)
}
