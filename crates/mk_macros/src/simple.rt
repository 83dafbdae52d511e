//! Expansions that are found without any macro's value being made: of plain bytes, `$@`, `$<` and `$*`, and macros whose texts have no
//! reference.
ghost use Rattle.std.specs.Prelude.{◌≡◌, ◌≤◌, ◌++◌, ℕ, List, [], None, Some, Option, length, IfOk, IfSome};
ghost use Rattle.std.specs.Bool.{OnTrue};
ghost use Rattle.mk_macros.specs.Dynamic.{dynamic_value, recipe_value, whole_value};
ghost use Rattle.mk_macros.specs.Expansion.{gives, limit, Expands};
ghost use Rattle.mk_macros.specs.Function.{function_in};
ghost use Rattle.mk_macros.specs.Ranks.{defined_by, meaning_of};
ghost use Rattle.mk_macros.specs.Reference.{reference, whole};
ghost use Rattle.mk_macros.specs.Shown.{shown_piece};
ghost use Rattle.mk_macros.specs.Simple.{is_sign, begins_with_sign, AddsThere};
ghost use Rattle.mk_macros.specs.declared.dynamic.Dynamic.TheVariants.{RecipeLine};
ghost use Rattle.mk_profile.specs.Profile.{is_wide};

use crate::definitions::Macros;
use crate::dynamic::{Dynamic, RecipeNames};
use crate::fault::most_bytes;
use crate::function::function_in;
use crate::plain::is_own_value;
use crate::reference::{Piece, Use, next_piece};
use std::alloc::{AllocError, Global};

/// The names of all dynamic macros begin so.
fn is_sign(byte: u8) -> bool
    ensures { result ≡ is_sign byte }
{
    byte == b'@'
        || byte == b'<'
        || byte == b'*'
        || byte == b'?'
        || byte == b'^'
        || byte == b'+'
        || byte == b'|'
}

fn begins_with_sign(name: &[u8]) -> bool
    ensures { result ≡ begins_with_sign name.now }
{
    match name {
        [first, ..] => is_sign(*first),
        [] => false,
    }
}

/// A value that is no longer than this.
fn short(value: &[u8], most: usize) -> Option<&[u8]>
    ensures { (word : Option (List ℕ)) → word ≡ Some value.now → IfSome result (λ v. (word ≡ Some v.now) × (length v.now ≤ most)) }
{
    if value.len() > most {
        return None;
    }
    Some(value)
}

/// The word of `$@`, `$<` or `$*`.
fn single_word<'a>(names: &RecipeNames<'a>, most: usize, sign: u8) -> Option<&'a [u8]>
    ensures { IfSome result (λ v. (whole_value names.now sign ≡ Some v.now) × (length v.now ≤ most)) }
{
    match sign {
        b'@' => short(names.target, most),
        b'<' => short(names.source, most),
        b'*' => short(names.stem, most),
        _ => None,
    }
}

fn dynamic_word<'a>(names: &RecipeNames<'a>, most: usize, name: &[u8]) -> Option<&'a [u8]>
    ensures { IfSome result (λ v. (recipe_value names.now name.now ≡ Some v.now) × (length v.now ≤ most)) }
{
    match name {
        [sign] => single_word(names, most, *sign),
        _ => None,
    }
}

/// Appends bytes, and tells whether the whole is no longer than this. Where it would be, nothing is appended.
fn append_within(made: &mut Vec<u8>, most: usize, bytes: &[u8]) -> Result<bool, AllocError>
    requires { length made.old.items ≤ most }
    ensures { IfOk result (λ so. OnTrue so ((made.new.items ≡ made.old.items ++ bytes.now) × (length made.new.items ≤ most))) }
{
    if bytes.len() > most - made.len() {
        return Ok(false);
    }
    made.extend_from_slice(bytes)?;
    Ok(true)
}

impl Macros {
    /// What a macro adds that isn't defined: nothing, if its name spells no function.
    fn undefined_value(&self, name: &[u8]) -> Option<&[u8]>
        ensures { IfSome result (λ v. (v.now ≡ []) × (function_in (is_wide (defined_by self.now).language) name.now ≡ None)) }
    {
        match function_in(self.profile(), name) {
            None => Some(&[]),
            Some(_) => None,
        }
    }

    /// What a reference to a name adds that is no dynamic macro, where its text has no reference.
    fn own_value(&self, line: &Dynamic<'_>, name: &[u8]) -> Option<&[u8]>
        requires { dynamic_value line.now name.now ≡ None }
        ensures { IfSome result (λ v. AddsThere (defined_by self.now) line.now (reference name.now whole) v.now) }
    {
        match self.definition(name) {
            None => self.undefined_value(name),
            Some((_, text)) if is_own_value(self.profile(), text) => Some(text),
            Some(_) => None,
        }
    }

    /// The same in a recipe line with these names, also of a dynamic macro of one word.
    fn recipe_value<'a>(
        &'a self,
        line: &Dynamic<'_>,
        names: &RecipeNames<'a>,
        name: &[u8],
    ) -> Option<&'a [u8]>
        requires { line.now ≡ RecipeLine names.now }
        ensures { IfSome result (λ v. AddsThere (defined_by self.now) line.now (reference name.now whole) v.now) }
    {
        if begins_with_sign(name) {
            return dynamic_word(names, most_bytes(self.profile()), name);
        }
        self.own_value(line, name)
    }

    fn simple_value<'a>(&'a self, line: &Dynamic<'a>, name: &[u8]) -> Option<&'a [u8]>
        ensures { IfSome result (λ v. AddsThere (defined_by self.now) line.now (reference name.now whole) v.now) }
    {
        match line {
            Dynamic::RuleLine => self.own_value(line, name),
            Dynamic::RecipeLine(names) => self.recipe_value(line, names, name),
        }
    }

    fn simple_piece<'a>(&'a self, line: &Dynamic<'a>, piece: Piece<'a>) -> Option<&'a [u8]>
        ensures { IfSome result (λ bytes. AddsThere (defined_by self.now) line.now (shown_piece piece.entry) bytes.now) }
    {
        match piece {
            Piece::Plain(bytes) => Some(bytes),
            Piece::Reference(name, Use::Whole) => self.simple_value(line, name),
            Piece::Reference(_, Use::Words(_)) | Piece::Unclosed | Piece::Nested(_) => None,
        }
    }

    /// The expansion of a text, where it's found so. None says nothing.
    pub(crate) fn expand_simply<'a>(
        &'a self,
        alloc: Global,
        text: &'a [u8],
        line: &Dynamic<'a>,
    ) -> Result<Option<Vec<u8>>, AllocError>
        ensures { IfOk result (λ found. IfSome found
            (λ v. Expands (is_wide (defined_by self.now).language) (meaning_of (defined_by self.now).ranks line.now) [] [] text.now (gives v.items))) }
    {
        let profile = self.profile();
        let mut made = Vec::with_capacity(alloc, text.len())?;
        let mut rest = text;
        while let Some((piece, after)) = next_piece(profile, rest) {
            let Some(bytes) = self.simple_piece(line, piece) else {
                return Ok(None);
            };
            let fits = append_within(&mut made, most_bytes(profile), bytes)?;
            if !fits {
                return Ok(None);
            }
            rest = after;
        }
        Ok(Some(made))
    }
}
