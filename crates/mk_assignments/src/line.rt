//! What a line says of variables, read from its front.
ghost use Rattle.std.specs.Prelude.{◌≡◌, ◌<◌, length, None, Some, MatchOption, IfSome, option_map};
ghost use Rattle.mk_conditionals.specs.Cut.{front_word, behind_word};
ghost use Rattle.mk_assignments.specs.Reading.{definition};
ghost use Rattle.mk_assignments.specs.Line.{no_modifiers, opened, Assigns, Says};
ghost use Rattle.mk_assignments.specs.Steps.{modifier_named, modifier_at, word_assigns, assigned_at, listed_at, opened_by, said, said_by};

use crate::definition::definition_of;
use crate::sign::Sign;
use crate::statement::{DefineLine, Modifier, Modifiers, Statement};
use byte_strings::{first_word, trim_end, trim_start};

/// The first word of a text, and what stands behind it without the blanks in front.
#[tactic(auto, unfolding(mk_conditionals::specs::Cut::front_word, mk_conditionals::specs::Cut::behind_word))]
fn part_word(text: &[u8]) -> (&[u8], &[u8])
    ensures word { result.0.now ≡ front_word text.now }
    ensures behind { result.1.now ≡ behind_word text.now }
{
    let line = trim_start(text);
    let word = first_word(line);
    let rest = line.get(word.len()..).unwrap_or(b"".as_slice());
    (word, trim_start(rest))
}

fn modifier_named(word: &[u8]) -> Option<Modifier>
    ensures { result ≡ modifier_named word.now }
{
    if word == b"export".as_slice() {
        return Some(Modifier::Export);
    }
    if word == b"override".as_slice() {
        return Some(Modifier::Override);
    }
    if word == b"private".as_slice() {
        return Some(Modifier::Private);
    }
    None
}

/// The modifier that a text begins with, and what stands behind it.
#[tactic(auto, unfolding(crate::specs::Steps::modifier_at))]
fn modifier_at(text: &[u8]) -> Option<(Modifier, &[u8])>
    ensures { MatchOption result (modifier_at text.now ≡ None) (λ found. modifier_at text.now ≡ Some (found.0, found.1.now)) }
{
    if definition_of(text).is_some() {
        return None;
    }
    let (word, rest) = part_word(text);
    let modifier = modifier_named(word)?;
    Some((modifier, rest))
}

/// The line of a `define` with this behind the word.
fn define_line(rest: &[u8]) -> DefineLine<'_>
    ensures { opened_by result ≡ opened rest.now (definition rest.now) }
{
    match definition_of(rest) {
        Some(definition) => DefineLine {
            name: definition.name,
            sign: definition.sign,
            has_text_behind: !definition.value.is_empty(),
        },
        None => DefineLine {
            name: trim_end(rest),
            sign: Sign::Recursive,
            has_text_behind: false,
        },
    }
}

fn word_assigns<'a>(modifiers: Modifiers, word: &[u8], rest: &'a [u8]) -> Option<Statement<'a>>
    ensures { option_map said_by result ≡ word_assigns modifiers word.now rest.now }
{
    if word == b"define".as_slice() {
        return Some(Statement::Begins(modifiers, define_line(rest)));
    }
    if word == b"undefine".as_slice() {
        return Some(Statement::Undefines(modifiers, trim_end(rest)));
    }
    None
}

/// What stands behind the modifiers.
#[tactic(auto, unfolding(crate::specs::Steps::assigned_at))]
fn assigned_at(modifiers: Modifiers, text: &[u8]) -> Option<Statement<'_>>
    ensures { option_map said_by result ≡ assigned_at modifiers text.now }
{
    if let Some(definition) = definition_of(text) {
        return Some(Statement::Defines(modifiers, definition));
    }
    let (word, rest) = part_word(text);
    word_assigns(modifiers, word, rest)
}

/// A definition, `define` or `undefine`, behind any modifiers.
fn assigned(text: &[u8]) -> Option<Statement<'_>>
    ensures { Assigns no_modifiers text.now (option_map said_by result) }
{
    let mut modifiers = Modifiers::none();
    let mut rest = text;
    while let Some((modifier, behind)) = modifier_at(rest) {
        modifiers = modifiers.and(modifier);
        rest = behind;
    }
    assigned_at(modifiers, rest)
}

#[tactic(auto, unfolding(crate::specs::Steps::listed_at))]
fn listed_at(text: &[u8]) -> Option<Statement<'_>>
    ensures { option_map said_by result ≡ listed_at text.now }
{
    let (word, rest) = part_word(text);
    if word == b"export".as_slice() {
        return Some(Statement::Exports(rest));
    }
    if word == b"unexport".as_slice() {
        return Some(Statement::Unexports(rest));
    }
    None
}

/// What a logical line says of variables, if it says anything. Its comment is taken off, and its lines are joined; blanks may
/// stand in front. A word that is defined, as in `export = x`, says nothing else.
pub fn statement_of(text: &[u8]) -> Option<Statement<'_>>
    ensures meaning { Says text.now (option_map said_by result) }
    ensures value { option_map said_by result ≡ said text.now }
{
    let line = trim_start(text);
    match assigned(line) {
        Some(statement) => Some(statement),
        None => listed_at(line),
    }
}
