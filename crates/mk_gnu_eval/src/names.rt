//! The names of the files that an include line includes.
ghost use Rattle.std.specs.Prelude.{◌≡◌, ◌++◌, IfOk, OnOk};
ghost use Rattle.std.specs.List.{list_any};
ghost use Rattle.mk_functions.specs.Values.{Answers};
ghost use Rattle.mk_words.specs.Words.{words_of};
ghost use Rattle.mk_gnu_eval.specs.Reading.{is_sign, or_itself, names_for, included_names};

use byte_strings::ByteStrings;
use mk_functions::Outside;
use mk_pieces::Question;
use mk_words::next_word;
use std::alloc::{AllocError, Global};

fn is_sign(byte: u8) -> bool
    ensures { result ≡ is_sign byte }
{
    byte == b'*' || byte == b'?' || byte == b'['
}

/// Whether a name is a pattern of names.
fn has_sign(name: &[u8]) -> bool
    ensures { result ≡ list_any is_sign name.now }
{
    name.iter().any(|byte| is_sign(*byte))
}

fn push_words(names: &mut ByteStrings, text: &[u8]) -> Result<(), AllocError>
    ensures { OnOk result (names.new ≡ names.old ++ words_of text.now) }
{
    let mut rest = text;
    while let Some((word, behind)) = next_word(rest) {
        names.push(word)?;
        rest = behind;
    }
    Ok(())
}

/// Adds the files that were found for a name, or itself.
fn push_found(names: &mut ByteStrings, name: &[u8], found: &[u8]) -> Result<(), AllocError>
    ensures { OnOk result (names.new ≡ names.old ++ or_itself name.now (words_of found.now)) }
{
    if next_word(found).is_none() {
        return names.push(name);
    }
    push_words(names, found)
}

/// Adds what a name stands for.
fn push_names<O: Outside>(
    alloc: Global,
    outside: &mut O,
    names: &mut ByteStrings,
    name: &[u8],
) -> Result<(), AllocError>
    ensures names { (w : Answers) → O.allows outside.new w → OnOk result (names.new ≡ names.old ++ names_for w name.now) }
    ensures narrows { (w : Answers) → O.allows outside.new w → O.allows outside.old w }
{
    if !has_sign(name) {
        return names.push(name);
    }
    let found = outside.answer(alloc, Question::Wildcard, name)?;
    push_found(names, name, found.as_slice())
}

/// The names of the files of an include line with this text.
pub(crate) fn included_names<O: Outside>(
    alloc: Global,
    outside: &mut O,
    text: &[u8],
) -> Result<ByteStrings, AllocError>
    ensures names { (w : Answers) → O.allows outside.new w → IfOk result (λ names. names ≡ included_names w text.now) }
    ensures narrows { (w : Answers) → O.allows outside.new w → O.allows outside.old w }
{
    let mut names = ByteStrings::empty(alloc);
    let mut rest = text;
    while let Some((name, behind)) = next_word(rest) {
        push_names(alloc, outside, &mut names, name)?;
        rest = behind;
    }
    Ok(names)
}
