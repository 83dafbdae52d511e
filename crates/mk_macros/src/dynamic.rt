// The dynamic macros of a recipe line: `$@`, `$<`, `$*`, `$?`, `$^`, `$+`, `$|`, and their D and F parts.
ghost use Rattle.std.specs.Prelude.{◌≡◌, ◌≤◌, ◌<◌, [], ◌∷◌, ◌++◌, length, map, option_map, IfOk, IfErr, IfSome};
ghost use Rattle.std.specs.List.{join_with_byte};
ghost use Rattle.mk_macros.specs.Words.{changed_words};
ghost use Rattle.mk_macros.specs.Shown.{shown_change};
ghost use Rattle.mk_macros.specs.Dynamic.{words_in, whole_value, part_value, recipe_value, dynamic_value};
ghost use Rattle.mk_macros.specs.Expansion.{IsTooLongAt, IsLongValue};

use crate::fault::MacroFault;
use crate::substitution::{WordChange, append_changed_words};
use std::alloc::{AllocError, Global};

/// What a recipe's dynamic macros stand for.
#[derive(Clone, Copy)]
pub struct RecipeNames<'a> {
    pub target: &'a [u8],
    /// The value of `$<`, and that of `$*`: empty where there is none.
    pub source: &'a [u8],
    pub stem: &'a [u8],
    /// The words of `$?`.
    pub newer: &'a [&'a [u8]],
    /// The words of `$^`, those of `$+`, and those of `$|`; None where it is no dynamic macro.
    pub once: Option<&'a [&'a [u8]]>,
    pub repeated: Option<&'a [&'a [u8]]>,
    pub order_only: Option<&'a [&'a [u8]]>,
}

/// The line whose text is expanded.
#[derive(Clone, Copy)]
pub enum Dynamic<'a> {
    /// There are no dynamic macros: their names are looked up like any other.
    RuleLine,
    RecipeLine(RecipeNames<'a>),
}

/// The words with one space between each two.
fn joined(alloc: Global, words: &[&[u8]]) -> Result<Vec<u8>, AllocError>
    ensures { IfOk result (λ v. v.items ≡ join_with_byte 32 (map (λ word. word.now) words.now)) }
{
    let mut text = Vec::new(alloc);
    for (i, word) in words.iter().enumerate() {
        if i > 0 {
            text.push(b' ')?;
        }
        text.extend_from_slice(*word)?;
    }
    Ok(text)
}

/// The same of words that there may be.
fn joined_in(alloc: Global, words: Option<&[&[u8]]>) -> Result<Option<Vec<u8>>, AllocError>
    ensures { IfOk result (λ found. option_map (λ v. v.items) found ≡ option_map (join_with_byte 32) (words_in words.entry)) }
{
    match words {
        Some(words) => Ok(Some(joined(alloc, words)?)),
        None => Ok(None),
    }
}

impl<'a> RecipeNames<'a> {
    fn whole_value(&self, alloc: Global, sign: u8) -> Result<Option<Vec<u8>>, AllocError>
        ensures { IfOk result (λ found. option_map (λ v. v.items) found ≡ whole_value self.now sign) }
    {
        match sign {
            b'@' => Ok(Some(Vec::from_slice(alloc, self.target)?)),
            b'<' => Ok(Some(Vec::from_slice(alloc, self.source)?)),
            b'*' => Ok(Some(Vec::from_slice(alloc, self.stem)?)),
            b'?' => Ok(Some(joined(alloc, self.newer)?)),
            b'^' => joined_in(alloc, self.once),
            b'+' => joined_in(alloc, self.repeated),
            b'|' => joined_in(alloc, self.order_only),
            _ => Ok(None),
        }
    }
}

/// The value, where it is no longer than this.
fn checked(value: Vec<u8>, most: usize) -> Result<Vec<u8>, MacroFault>
    ensures ok { IfOk result (λ v. (v.items ≡ value.items) × (length v.items ≤ most)) }
    ensures err { IfErr result (IsTooLongAt most (length value.items)) }
{
    if value.len() > most {
        return Err(MacroFault::TooLong);
    }
    Ok(value)
}

/// The value with each of its words cut to its directory or its file.
fn part_of(
    alloc: Global,
    most: usize,
    value: &[u8],
    change: &WordChange<'_>,
) -> Result<Vec<u8>, MacroFault>
    ensures ok { IfOk result
        (λ v. (v.items ≡ changed_words (shown_change change.now) value.now) × (length v.items ≤ most)) }
    ensures err { IfErr result (IsTooLongAt most (length (changed_words (shown_change change.now) value.now))) }
{
    let mut part = Vec::new(alloc);
    append_changed_words(&mut part, most, value, change)?;
    Ok(part)
}

impl<'a> RecipeNames<'a> {
    fn part_value(
        &self,
        alloc: Global,
        most: usize,
        sign: u8,
        change: &WordChange<'_>,
    ) -> Result<Option<Vec<u8>>, MacroFault>
        ensures ok { IfOk result
            (λ found. (option_map (λ v. v.items) found
            ≡ option_map (changed_words (shown_change change.now)) (whole_value self.now sign))
            × IfSome found (λ v. length v.items ≤ most)) }
        ensures err { IfErr result
            (IsLongValue most (option_map (changed_words (shown_change change.now)) (whole_value self.now sign))) }
    {
        match self.whole_value(alloc, sign)? {
            Some(value) => Ok(Some(part_of(alloc, most, &value, change)?)),
            None => Ok(None),
        }
    }

    fn value(&self, alloc: Global, most: usize, name: &[u8]) -> Result<Option<Vec<u8>>, MacroFault>
        ensures ok { IfOk result
            (λ found. (option_map (λ v. v.items) found ≡ recipe_value self.now name.now)
            × IfSome found (λ v. length v.items ≤ most)) }
        ensures err { IfErr result (IsLongValue most (recipe_value self.now name.now)) }
    {
        match name {
            [sign] => match self.whole_value(alloc, *sign)? {
                Some(value) => Ok(Some(checked(value, most)?)),
                None => Ok(None),
            },
            [sign, b'D'] => self.part_value(alloc, most, *sign, &WordChange::Directory),
            [sign, b'F'] => self.part_value(alloc, most, *sign, &WordChange::File),
            _ => Ok(None),
        }
    }
}

impl<'a> Dynamic<'a> {
    /// The value of a dynamic macro, which is no longer than this, or none where the name stands for none in this line.
    pub(crate) fn value(
        &self,
        alloc: Global,
        most: usize,
        name: &[u8],
    ) -> Result<Option<Vec<u8>>, MacroFault>
        ensures ok { IfOk result
            (λ found. (option_map (λ v. v.items) found ≡ dynamic_value self.now name.now)
            × IfSome found (λ v. length v.items ≤ most)) }
        ensures err { IfErr result (IsLongValue most (dynamic_value self.now name.now)) }
    {
        match self {
            Dynamic::RuleLine => Ok(None),
            Dynamic::RecipeLine(names) => names.value(alloc, most, name),
        }
    }
}
