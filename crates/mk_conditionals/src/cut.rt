//! Texts that are cut at a byte.
ghost use Rattle.std.specs.Prelude.{◌≡◌, ◌+◌, ◌<◌, ◌^◌, ◌==◌, if◌then◌else◌, None, Some, MatchOption, option_copied};
ghost use Rattle.byte_strings.specs.Blanks.{first_word, trimmed_start};
ghost use Rattle.mk_conditionals.specs.Cut.{front_word, behind_word, counted, behind_mark, cut};

use byte_strings::{first_word, trim_start};

/// The first word of a text, and what stands behind it without the blanks in front.
#[tactic(auto, unfolding(crate::specs::Cut::front_word, crate::specs::Cut::behind_word))]
pub fn part_word(text: &[u8]) -> (&[u8], &[u8])
    ensures word { result.0.now ≡ front_word text.now }
    ensures behind { result.1.now ≡ behind_word text.now }
{
    let line = trim_start(text);
    let word = first_word(line);
    let rest = line.get(word.len()..).unwrap_or(b"".as_slice());
    (word, trim_start(rest))
}

/// One more where a byte is the wanted one.
fn counted(wanted: u8, byte: u8, so_far: usize) -> usize
    requires { so_far + 1 < 2 ^ 64 }
    ensures { result ≡ counted wanted byte so_far }
{
    if byte == wanted { so_far + 1 } else { so_far }
}

/// What stands behind the first of these bytes, where parentheses count behind one in front of which no more open than close.
fn behind_mark(text: &[u8], mark: u8, is_nested: bool) -> Option<&[u8]>
    ensures { option_copied result ≡ behind_mark is_nested mark 0 0 text.now }
{
    let mut opened = 0;
    let mut closed = 0;
    let mut rest = text;
    while let Some((byte, behind)) = rest.split_first() {
        if *byte == mark && (!is_nested || opened <= closed) {
            return Some(behind);
        }
        opened = counted(b'(', *byte, opened);
        closed = counted(b')', *byte, closed);
        rest = behind;
    }
    None
}

/// What stands before that byte, and what stands behind it.
#[tactic(auto, unfolding(crate::specs::Cut::cut))]
pub fn cut(text: &[u8], mark: u8, is_nested: bool) -> Option<(&[u8], &[u8])>
    ensures { MatchOption result (cut is_nested mark text.now ≡ None)
        (λ found. cut is_nested mark text.now ≡ Some (found.0.now, found.1.now)) }
{
    let behind = behind_mark(text, mark, is_nested)?;
    let len = text.len().saturating_sub(behind.len() + 1);
    Some((text.split_at(len).0, behind))
}
