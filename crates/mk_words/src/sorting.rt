//! Words in order.
ghost use Rattle.std.specs.Prelude.{◌≡◌, ℕ, List, map, IfOk};
ghost use Rattle.std.specs.Ordering.{nat_cmp};
ghost use Rattle.std.specs.Cmp.Lexicographic.{slice_cmp};
ghost use Rattle.std.specs.BTreeSet.{IsOrdered};
ghost use Rattle.mk_words.specs.Words.{words_of, spaced};
ghost use Rattle.mk_words.specs.Sorted.{IsSortOf};

use crate::cursor::Words;
use crate::joined::{push_word, without_last};
use std::alloc::{AllocError, Global};
use std::collections::BTreeSet;

/// These words, with one space between each two.
fn spaced_of(alloc: Global, words: &BTreeSet<&[u8]>) -> Result<Vec<u8>, AllocError>
    ensures ordered { IsOrdered (λ a b. slice_cmp nat_cmp a.now b.now) words.now }
    ensures text { IfOk result (λ v. v.items ≡ spaced (map (λ word. word.now) words.now.keys)) }
{
    let mut out = Vec::new(alloc);
    for word in words.iter() {
        push_word(&mut out, *word)?;
    }
    Ok(without_last(out))
}

/// `$(sort TEXT)`. A byte is a number from 0 to 255, as C's `strcmp` has it: GNU make's order of the first bytes of words is
/// that of the machine's `char`, which may have a sign.
pub fn sort(alloc: Global, text: &[u8]) -> Result<Vec<u8>, AllocError>
    ensures { IfOk result (λ v. (sorted : List (List ℕ)) × IsSortOf (words_of text.now) sorted × (v.items ≡ spaced sorted)) }
{
    let mut words = BTreeSet::new(alloc);
    for word in Words::new(text) {
        words.insert(word)?;
    }
    let out = spaced_of(alloc, &words)?;
    Ok(out)
}
