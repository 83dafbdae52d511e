//! Words that are counted, from 1 on.
ghost use Rattle.std.specs.Prelude.{◌≡◌, length};
ghost use Rattle.std.specs.Option.{option_copied};
ghost use Rattle.mk_words.specs.Words.{words_of, behind_words};
ghost use Rattle.mk_words.specs.Counted.{numbered_word, first_word, last_word, word_stretch};

use crate::cursor::{Words, before_spaces, behind_spaces, next_word};

/// `$(words TEXT)`
pub fn word_count(text: &[u8]) -> usize
    ensures { result ≡ length (words_of text.now) }
{
    let mut count = 0;
    let mut rest = text;
    while let Some((_, behind)) = next_word(rest) {
        count += 1;
        rest = behind;
    }
    count
}

/// What stands behind so many words.
fn behind_words(count: usize, text: &[u8]) -> &[u8]
    ensures { result.now ≡ behind_words count text.now }
{
    let mut left = count;
    let mut rest = text;
    while left > 0 {
        let Some((_, behind)) = next_word(rest) else {
            return &[];
        };
        rest = behind;
        left -= 1;
    }
    rest
}

/// The word of this number, or nothing where there are fewer. There is no number 0.
pub(crate) fn numbered_word(number: usize, text: &[u8]) -> Option<&[u8]>
    ensures { option_copied result ≡ numbered_word number (words_of text.now) }
{
    let before = number.checked_sub(1)?;
    Some(first_word(behind_words(before, text)))
}

/// The words from one number to another, with what stands between them. There is no number 0 to begin with.
pub(crate) fn word_stretch(first: usize, last: usize, text: &[u8]) -> Option<&[u8]>
    ensures { option_copied result ≡ word_stretch first last text.now }
{
    let before = first.checked_sub(1)?;
    let front = behind_words(before, text);
    let len = front.len().saturating_sub(behind_words(last, text).len());
    Some(before_spaces(behind_spaces(&front[..len])))
}

/// `$(firstword TEXT)`
pub fn first_word(text: &[u8]) -> &[u8]
    ensures { result.now ≡ first_word (words_of text.now) }
{
    match next_word(text) {
        Some((word, _)) => word,
        None => &[],
    }
}

/// `$(lastword TEXT)`
pub fn last_word(text: &[u8]) -> &[u8]
    ensures { result.now ≡ last_word (words_of text.now) }
{
    let mut last = b"".as_slice();
    for word in Words::new(text) {
        last = word;
    }
    last
}
