//! Patterns with a `%`, and the words that fit them.
ghost use Rattle.std.specs.Prelude.{◌≡◌, ◌++◌, ◌∷◌, ◌||◌, ℕ, List, Option, [], length, map, filter, not, IfOk, OnOk};
ghost use Rattle.std.specs.Option.{option_copied};
ghost use Rattle.mk_words.specs.Words.{words_of, spaced};
ghost use Rattle.mk_words.specs.Patterns.{backslashes, pattern_of, stem_of, fits, fits_any, fits_parted};

use crate::cursor::Words;
use crate::joined::{push_word, without_last};
use std::alloc::{AllocError, Global};
use std::collections::BTreeSet;
use std::marker::Model;

/// What a word has to begin with, and what it ends with behind the `%`, where there is one.
#[derive(Drop)]
pub(crate) struct Pattern<'a> {
    pub(crate) front: Vec<u8>,
    pub(crate) behind: Option<&'a [u8]>,
}

impl<'a> Model for Pattern<'a> {
    ghost Value = { List ℕ × Option (List ℕ) };

    ghost view = { λ s. (s.front.items, option_copied s.behind) };
}

fn push_backslashes(out: &mut Vec<u8>, count: usize) -> Result<(), AllocError>
    ensures { OnOk result (out.new.items ≡ out.old.items ++ backslashes count) }
{
    for _ in 0..count {
        out.push(b'\\')?;
    }
    Ok(())
}

/// The part of a word that the `%` stands for.
pub(crate) fn stem_of<'a>(front: &[u8], behind: &[u8], word: &'a [u8]) -> Option<&'a [u8]>
    ensures { option_copied result ≡ stem_of front.now behind.now word.now }
{
    word.strip_prefix(front)?.strip_suffix(behind)
}

impl<'a> Pattern<'a> {
    pub(crate) fn of(alloc: Global, text: &'a [u8]) -> Result<Pattern<'a>, AllocError>
        ensures { IfOk result (λ pattern. pattern ≡ pattern_of text.now) }
    {
        let mut front = Vec::new(alloc);
        let mut held = 0usize;
        let mut rest = text;
        while let Some((byte, behind)) = rest.split_first() {
            if *byte == b'\\' {
                held += 1;
            } else if *byte != b'%' {
                push_backslashes(&mut front, held)?;
                front.push(*byte)?;
                held = 0;
            } else if held % 2 == 0 {
                push_backslashes(&mut front, held / 2)?;
                return Ok(Pattern {
                    front,
                    behind: Some(behind),
                });
            } else {
                push_backslashes(&mut front, held / 2)?;
                front.push(*byte)?;
                held = 0;
            }
            rest = behind;
        }
        push_backslashes(&mut front, held)?;
        Ok(Pattern {
            front,
            behind: None,
        })
    }

    fn fits(&self, word: &[u8]) -> bool
        ensures { result ≡ fits self.now word.now }
    {
        match self.behind {
            None => word == self.front.as_slice(),
            Some(behind) => stem_of(self.front.as_slice(), behind, word).is_some(),
        }
    }
}

/// Patterns, of which those without a `%` are looked up.
#[derive(Drop)]
struct Patterns<'a> {
    literals: BTreeSet<Vec<u8>>,
    forms: Vec<Pattern<'a>>,
}

fn fits_any(patterns: &[Pattern<'_>], word: &[u8]) -> bool
    ensures { result ≡ fits_any patterns.now word.now }
{
    for pattern in patterns {
        if pattern.fits(word) {
            return true;
        }
    }
    false
}

impl<'a> Patterns<'a> {
    /// One more.
    fn add(&mut self, alloc: Global, text: &'a [u8]) -> Result<(), AllocError>
        ensures { OnOk result ((word : List ℕ) → fits_parted (map (λ k. k.items) self.new.literals.keys) self.new.forms.items word
            ≡ (fits (pattern_of text.now) word
            || fits_parted (map (λ k. k.items) self.old.literals.keys) self.old.forms.items word)) }
    {
        let pattern = Pattern::of(alloc, text)?;
        match pattern.behind {
            None => {
                self.literals.insert(pattern.front)?;
            }
            Some(_) => self.forms.push(pattern)?,
        }
        Ok(())
    }

    /// Those of words.
    fn of(alloc: Global, text: &'a [u8]) -> Result<Patterns<'a>, AllocError>
        ensures { IfOk result (λ v. (word : List ℕ) → fits_parted (map (λ k. k.items) v.literals.keys) v.forms.items word
            ≡ fits_any (map pattern_of (words_of text.now)) word) }
    {
        let mut patterns = Patterns {
            literals: BTreeSet::new(alloc),
            forms: Vec::new(alloc),
        };
        for word in Words::new(text) {
            patterns.add(alloc, word)?;
        }
        Ok(patterns)
    }

    fn fits(&self, word: &[u8]) -> bool
        ensures { result ≡ fits_parted (map (λ k. k.items) self.now.literals.keys) self.now.forms.items word.now }
    {
        self.literals.contains(word) || fits_any(self.forms.as_slice(), word)
    }
}

/// `$(filter PATTERNS,TEXT)`
pub fn filter(alloc: Global, patterns: &[u8], text: &[u8]) -> Result<Vec<u8>, AllocError>
    ensures { IfOk result (λ v. v.items ≡ spaced (filter (fits_any (map pattern_of (words_of patterns.now))) (words_of text.now))) }
{
    let patterns = Patterns::of(alloc, patterns)?;
    let mut out = Vec::new(alloc);
    for word in Words::new(text) {
        if patterns.fits(word) {
            push_word(&mut out, word)?;
        }
    }
    Ok(without_last(out))
}

/// `$(filter-out PATTERNS,TEXT)`
pub fn filter_out(alloc: Global, patterns: &[u8], text: &[u8]) -> Result<Vec<u8>, AllocError>
    ensures { IfOk result (λ v. v.items ≡ spaced (filter (λ word. not (fits_any (map pattern_of (words_of patterns.now)) word)) (words_of text.now))) }
{
    let patterns = Patterns::of(alloc, patterns)?;
    let mut out = Vec::new(alloc);
    for word in Words::new(text) {
        if !patterns.fits(word) {
            push_word(&mut out, word)?;
        }
    }
    Ok(without_last(out))
}
