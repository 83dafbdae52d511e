//! From one logical line to its form. Each function answers the form, or the line's fault.
ghost use Rattle.std.specs.Prelude.{◌≡◌, ◌+◌, ◌<◌, ◌==◌, ◌&&◌, IfOk, IfSome, length, take, drop, codes, bytes_eq};
ghost use Rattle.std.specs.List.{list_any};
ghost use Rattle.byte_strings.specs.Blanks.{trimmed_start};
ghost use Rattle.mk_lines.specs.Quoted.{signs_in};
ghost use Rattle.mk_lines.specs.Text.{is_dollar, is_empty, is_text};
ghost use Rattle.mk_reader.specs.Directive.{told_as};
ghost use Rattle.mk_reader.specs.Form.{Gives, include_kind, include_form, prerequisites_of, recipe_of, judged_form, rule_form, begins_shell_definition, double_form, colon_form, unsigned_form, decided_form, line_form, content_form, statement_form};
ghost use Rattle.mk_lines.specs.References.{first_outside};
ghost use Rattle.mk_lines.specs.declared.reference.Place.TheVariants.{Outside};

use crate::blanks::refusal_behind;
use crate::comment::{before_comment, unescaped};
use crate::definition_line::{definition_form, kind_form, set_form};
use crate::directive::told_refusal;
use crate::fault::{Cause, Feature, ReadFault};
use crate::form::{Form, UnfinishedRule};
use crate::item::{
    Definition, DefinitionKind, DefinitionLine, IncludeLine, Recipe, RecipeLine, Rule,
};
use crate::line_place::LinePlace;
use crate::refuse::refuse;
use crate::special::{SpecialName, is_refused, special_name, takes_no_prerequisites};
use byte_strings::{ByteString, first_word, trim, trim_start};
use mk_lines::{
    around, begins_with, ends_with, first_outside, first_sign, is_text, opens_recipe, without_first,
};
use mk_profile::Profile;
use std::alloc::{AllocError, Global};

fn has_dollar(bytes: &[u8]) -> bool
    ensures { result ≡ list_any is_dollar bytes.now }
{
    bytes.contains(&b'$')
}

/// Whether the files of an include line have to be there, by the word that begins it. Other words begin none.
#[tactic(auto, unfolding(crate::specs::Form::include_kind))]
pub fn include_kind(profile: Profile, word: &[u8]) -> Option<bool>
    ensures { result ≡ include_kind profile word.now }
{
    if word == b"include".as_slice() {
        return Some(true);
    }
    if profile.is_wide() && (word == b"-include".as_slice() || word == b"sinclude".as_slice()) {
        return Some(false);
    }
    None
}

#[tactic(auto, unfolding(crate::specs::Form::include_form))]
fn include_form(place: LinePlace<'_>, is_required: bool, names: &[u8]) -> Result<Form, ReadFault>
    ensures { Gives result (include_form place.entry.profile place.entry.file.now place.entry.number is_required names.now) }
{
    if !place.profile.is_wide() && (has_dollar(names) || trim_start(names).is_empty()) {
        return Err(refuse(place, Cause::Unsupported(Feature::Include)));
    }
    let names = ByteString::from_slice(place.alloc, names)?;
    Ok(Form::Include(IncludeLine {
        line: place.number,
        is_required,
        names,
    }))
}

#[tactic(auto, unfolding(crate::specs::Form::judged_form))]
fn judged_form(
    alloc: Global,
    profile: Profile,
    special: Option<SpecialName>,
    rule: Rule,
) -> Result<Form, ReadFault>
    ensures { Gives result (judged_form profile special rule) }
{
    if let Some(name) = special {
        let has_prerequisites = !rule.prerequisites.as_slice().is_empty();
        if is_refused(profile, name)
            || (takes_no_prerequisites(profile, name) && has_prerequisites)
        {
            let cause = Cause::Unsupported(Feature::SpecialName(name));
            let place = LinePlace {
                alloc,
                profile,
                file: &rule.file,
                number: rule.line,
            };
            return Err(refuse(place, cause));
        }
    }
    Ok(Form::Rule(UnfinishedRule { special, rule }))
}

#[tactic(auto, unfolding(crate::specs::Form::prerequisites_of))]
fn prerequisites_of(right: &[u8], semicolon: Option<usize>) -> &[u8]
    requires { IfSome semicolon (λ at. at < length right.now) }
    ensures { result.now ≡ prerequisites_of right.now semicolon }
{
    match semicolon {
        Some(at) => trim(right.split_at(at).0),
        None => trim(right),
    }
}

#[tactic(auto, unfolding(crate::specs::Form::recipe_of))]
fn recipe_of(
    alloc: Global,
    number: usize,
    right: &[u8],
    semicolon: Option<usize>,
) -> Result<Recipe, AllocError>
    requires { IfSome semicolon (λ at. at < length right.now) }
    ensures { IfOk result (λ recipe. recipe ≡ recipe_of number right.now semicolon) }
{
    let mut recipe = Recipe::new(alloc);
    if let Some(at) = semicolon {
        let text = ByteString::from_slice(alloc, around(right, at).1)?;
        recipe.push(RecipeLine { text, line: number })?;
    }
    Ok(recipe)
}

#[tactic(auto, unfolding(crate::specs::Form::rule_form))]
fn rule_form(
    place: LinePlace<'_>,
    is_double: bool,
    targets: &[u8],
    right: &[u8],
) -> Result<Form, ReadFault>
    ensures { Gives result (rule_form place.entry.profile place.entry.file.now place.entry.number is_double targets.now right.now) }
{
    if targets.is_empty() {
        return Err(refuse(place, Cause::MissingSeparator));
    }
    let semicolon = first_outside(right, b';', b';');
    let rule = Rule {
        file: place.file.share()?,
        line: place.number,
        is_double,
        targets: ByteString::from_slice(place.alloc, targets)?,
        prerequisites: ByteString::from_slice(place.alloc, prerequisites_of(right, semicolon))?,
        recipe: recipe_of(place.alloc, place.number, right, semicolon)?,
    };
    let special = special_name(place.profile, first_word(targets));
    judged_form(place.alloc, place.profile, special, rule)
}

#[tactic(auto, unfolding(crate::specs::Form::double_form))]
fn double_form(place: LinePlace<'_>, left: &[u8], right: &[u8]) -> Result<Form, ReadFault>
    ensures { Gives result (double_form place.entry.profile place.entry.file.now place.entry.number left.now right.now) }
{
    if !place.profile.is_wide() {
        let cause = Cause::Unsupported(Feature::DoubleColon);
        return Err(refuse(place, cause));
    }
    if begins_with(right, b'=') {
        return kind_form(
            place,
            DefinitionKind::AtOnce,
            trim(left),
            without_first(right),
        );
    }
    if begins_with(right, b':') && begins_with(without_first(right), b'=') {
        let value = without_first(without_first(right));
        return kind_form(place, DefinitionKind::AtOnceAlone, trim(left), value);
    }
    rule_form(place, true, trim(left), right)
}

#[tactic(auto, unfolding(crate::specs::Form::begins_shell_definition))]
fn begins_shell_definition(right: &[u8]) -> bool
    ensures { result ≡ begins_shell_definition right.now }
{
    match right.strip_prefix(b"sh".as_slice()) {
        Some(rest) => begins_with(trim_start(rest), b'='),
        None => false,
    }
}

#[tactic(auto, unfolding(crate::specs::Form::colon_form))]
fn colon_form(place: LinePlace<'_>, left: &[u8], right: &[u8]) -> Result<Form, ReadFault>
    ensures { Gives result (colon_form place.entry.profile place.entry.file.now place.entry.number left.now right.now) }
{
    if begins_with(right, b':') {
        return double_form(place, left, without_first(right));
    }
    if begins_with(right, b'=') {
        return set_form(place, left, without_first(right));
    }
    if begins_shell_definition(right) {
        let cause = Cause::Unsupported(Feature::ShellDefinition);
        return Err(refuse(place, cause));
    }
    rule_form(place, false, trim(left), right)
}

/// A line without a sign. In the wide profile one that begins with a reference is told by what it comes to.
#[tactic(auto, unfolding(crate::specs::Form::unsigned_form))]
fn unsigned_form(place: LinePlace<'_>, line: &[u8]) -> Result<Form, ReadFault>
    ensures { Gives result (unsigned_form place.entry.profile place.entry.file.now place.entry.number line.now) }
{
    if !place.profile.is_wide() || !begins_with(line, b'$') {
        return Err(refuse(place, Cause::MissingSeparator));
    }
    let definition = Definition {
        file: place.file.share()?,
        line: place.number,
        name: ByteString::new(Vec::new(place.alloc)),
        append: false,
        value: ByteString::from_slice(place.alloc, line)?,
        is_fixed: false,
    };
    Ok(Form::DefinitionLine(DefinitionLine {
        kind: DefinitionKind::NoSign,
        definition,
    }))
}

#[tactic(auto, unfolding(crate::specs::Form::decided_form))]
fn decided_form(place: LinePlace<'_>, line: &[u8]) -> Result<Form, ReadFault>
    ensures { Gives result (decided_form place.entry.profile place.entry.file.now place.entry.number line.now
        (first_outside 61 58 Outside (signs_in place.entry.profile line.now))) }
{
    let Some(at) = first_sign(place.profile, line) else {
        return unsigned_form(place, line);
    };
    let (left, right) = around(line, at);
    if line[at] == b'=' {
        definition_form(place, left, right)
    } else {
        colon_form(place, left, right)
    }
}

/// The form of a line that is neither empty nor an include line, as it is told.
fn told_form(place: LinePlace<'_>, line: &[u8]) -> Result<Form, ReadFault>
    ensures { Gives result (told_as place.entry.profile line.now
        (decided_form place.entry.profile place.entry.file.now place.entry.number line.now
        (first_outside 61 58 Outside (signs_in place.entry.profile line.now)))) }
{
    let profile = place.profile;
    match decided_form(place, line) {
        Ok(form) => Ok(form),
        Err(ReadFault::OutOfMemory) => Err(ReadFault::OutOfMemory),
        Err(ReadFault::Refused(refused)) => {
            let told = told_refusal(profile, line, refused);
            Err(ReadFault::Refused(told))
        }
    }
}

#[tactic(auto, unfolding(crate::specs::Form::line_form))]
fn line_form(place: LinePlace<'_>, line: &[u8]) -> Result<Form, ReadFault>
    ensures { Gives result (line_form place.entry.profile place.entry.file.now place.entry.number line.now) }
{
    if line.is_empty() {
        return Ok(Form::Blank);
    }
    let word = first_word(line);
    match include_kind(place.profile, word) {
        Some(is_required) => {
            let names = line.get(word.len()..).unwrap_or(b"".as_slice());
            include_form(place, is_required, names)
        }
        None => told_form(place, line),
    }
}

#[tactic(auto, unfolding(crate::specs::Form::content_form))]
fn content_form(place: LinePlace<'_>, content: &[u8]) -> Result<Form, ReadFault>
    ensures { Gives result (content_form place.entry.profile place.entry.file.now place.entry.number content.now) }
{
    if !is_text(content) {
        return Err(refuse(place, Cause::NotText));
    }
    match line_form(place, trim(content)) {
        Ok(form) => Ok(form),
        Err(ReadFault::OutOfMemory) => Err(ReadFault::OutOfMemory),
        Err(ReadFault::Refused(refused)) => {
            let told = refusal_behind(place.profile, content, refused);
            Err(ReadFault::Refused(told))
        }
    }
}

/// The form of a line that is no recipe line.
#[tactic(auto, using(crate::proofs::ContentLemmas::cut_is, crate::proofs::ContentLemmas::opened_is, crate::proofs::ContentLemmas::unescaped_is), unfolding(crate::specs::Form::statement_form))]
pub fn statement_form(place: LinePlace<'_>, text: &[u8]) -> Result<Form, ReadFault>
    ensures { Gives result (statement_form place.entry.profile place.entry.file.now place.entry.number text.now) }
{
    if place.profile.is_wide() && opens_recipe(text) {
        return content_form(place, text);
    }
    let front = before_comment(text);
    if place.profile.is_wide() && ends_with(front, b'\\') {
        let content = unescaped(place.alloc, text)?;
        return content_form(place, content.as_slice());
    }
    content_form(place, front)
}
