//! Texts of words with one space between each two, made word by word.
ghost use Rattle.std.specs.Prelude.{◌≡◌, ◌∷◌, ◌++◌, ◌-◌, [], length, take, OnOk, IfOk};
ghost use Rattle.mk_words.specs.Words.{words_of, spaced};

use crate::cursor::Words;
use std::alloc::{AllocError, Global};

/// Adds a word of two parts, and a space behind it.
pub(crate) fn push_parts(out: &mut Vec<u8>, front: &[u8], behind: &[u8]) -> Result<(), AllocError>
    ensures { OnOk result (out.new.items ≡ out.old.items ++ ((front.now ++ behind.now) ++ 32 ∷ [])) }
{
    out.extend_from_slice(front)?;
    out.extend_from_slice(behind)?;
    out.push(b' ')?;
    Ok(())
}

/// Adds a word, and a space behind it.
pub(crate) fn push_word(out: &mut Vec<u8>, word: &[u8]) -> Result<(), AllocError>
    ensures { OnOk result (out.new.items ≡ out.old.items ++ (word.now ++ 32 ∷ [])) }
{
    out.extend_from_slice(word)?;
    out.push(b' ')?;
    Ok(())
}

/// What was made without the space behind the last word.
pub(crate) fn without_last(made: Vec<u8>) -> Vec<u8>
    ensures { result.items ≡ take (length made.items - 1) made.items }
{
    let mut out = made;
    out.truncate(out.len().saturating_sub(1));
    out
}

/// `$(strip TEXT)`
pub fn strip(alloc: Global, text: &[u8]) -> Result<Vec<u8>, AllocError>
    ensures { IfOk result (λ v. v.items ≡ spaced (words_of text.now)) }
{
    let mut out = Vec::new(alloc);
    for word in Words::new(text) {
        push_word(&mut out, word)?;
    }
    Ok(without_last(out))
}
