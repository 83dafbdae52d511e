// How a reference changes each word of a value.
ghost use Rattle.std.specs.Prelude.{◌≡◌, ◌≤◌, ◌<◌, ◌++◌, length, OnOk, IfErr, IfSome, option_copied};
ghost use Rattle.mk_macros.specs.Words.{place_of, pattern_of, stem_of, last_slash, directory_of, file_of, replacement, changed_word, changed_words};
ghost use Rattle.mk_macros.specs.Shown.{shown_pattern, shown_change};
ghost use Rattle.mk_macros.specs.Expansion.{IsTooLongAt};

use crate::fault::MacroFault;
use byte_strings::next_word;

/// Old and new of a substitution, parted where the stem stands.
#[derive(Clone, Copy)]
pub(crate) struct Pattern<'a> {
    before: &'a [u8],
    after: &'a [u8],
    front: &'a [u8],
    keeps_stem: bool,
    back: &'a [u8],
}

/// How each word of a value changes.
#[derive(Clone, Copy)]
pub(crate) enum WordChange<'a> {
    ByPattern(Pattern<'a>),
    Directory,
    File,
}

/// The first place of a byte.
pub(crate) fn place_of(bytes: &[u8], byte: u8) -> Option<usize>
    ensures value { result ≡ place_of byte bytes.now }
    ensures within { IfSome result (λ place. place < length bytes.now) }
{
    bytes.iter().position(|b| *b == byte)
}

impl<'a> Pattern<'a> {
    /// Parts old and new at their first `%`.
    pub(crate) fn new(old: &'a [u8], new: &'a [u8]) -> Pattern<'a>
        ensures { shown_pattern result ≡ pattern_of old.now new.now }
    {
        let Some(stem) = place_of(old, b'%') else {
            return Pattern {
                before: &[],
                after: old,
                front: &[],
                keeps_stem: true,
                back: new,
            };
        };
        let (before, after) = (&old[..stem], &old[stem + 1..]);
        match place_of(new, b'%') {
            Some(place) => Pattern {
                before,
                after,
                front: &new[..place],
                keeps_stem: true,
                back: &new[place + 1..],
            },
            None => Pattern {
                before,
                after,
                front: new,
                keeps_stem: false,
                back: &[],
            },
        }
    }

    /// What stands between before and after, in a word of that form.
    fn stem<'w>(&self, word: &'w [u8]) -> Option<&'w [u8]>
        ensures { option_copied result ≡ stem_of (shown_pattern self.now) word.now }
    {
        word.strip_prefix(self.before)?.strip_suffix(self.after)
    }
}

/// Appends bytes, where the whole is no longer than this.
pub(crate) fn append(out: &mut Vec<u8>, most: usize, bytes: &[u8]) -> Result<(), MacroFault>
    requires { length out.old.items ≤ most }
    ensures ok { OnOk result ((out.new.items ≡ out.old.items ++ bytes.now) × (length out.new.items ≤ most)) }
    ensures err { IfErr result (IsTooLongAt most (length (out.old.items ++ bytes.now))) }
{
    if bytes.len() > most - out.len() {
        return Err(MacroFault::TooLong);
    }
    out.extend_from_slice(bytes)?;
    Ok(())
}

fn last_slash(word: &[u8]) -> Option<usize>
    ensures value { result ≡ last_slash word.now }
    ensures within { IfSome result (λ slash. slash < length word.now) }
{
    let mut last = None;
    for (i, byte) in word.iter().enumerate() {
        if *byte == b'/' {
            last = Some(i);
        }
    }
    last
}

fn directory_of(word: &[u8]) -> &[u8]
    ensures { result.now ≡ directory_of word.now }
{
    match last_slash(word) {
        None => b".",
        Some(0) => b"/",
        Some(slash) => &word[..slash],
    }
}

fn file_of(word: &[u8]) -> &[u8]
    ensures { result.now ≡ file_of word.now }
{
    match last_slash(word) {
        None => word,
        Some(slash) => &word[slash + 1..],
    }
}

fn append_changed_word(
    out: &mut Vec<u8>,
    most: usize,
    word: &[u8],
    change: &WordChange<'_>,
) -> Result<(), MacroFault>
    requires { length out.old.items ≤ most }
    ensures ok { OnOk result ((out.new.items ≡ out.old.items ++ changed_word (shown_change change.now) word.now)
        × (length out.new.items ≤ most)) }
    ensures err { IfErr result (IsTooLongAt most (length (out.old.items ++ changed_word (shown_change change.now) word.now))) }
{
    match change {
        WordChange::Directory => append(out, most, directory_of(word)),
        WordChange::File => append(out, most, file_of(word)),
        WordChange::ByPattern(pattern) => match pattern.stem(word) {
            None => append(out, most, word),
            Some(stem) => append_replacement(out, most, pattern, stem),
        },
    }
}

fn append_replacement(
    out: &mut Vec<u8>,
    most: usize,
    pattern: &Pattern<'_>,
    stem: &[u8],
) -> Result<(), MacroFault>
    requires { length out.old.items ≤ most }
    ensures ok { OnOk result ((out.new.items ≡ out.old.items ++ replacement (shown_pattern pattern.now) stem.now)
        × (length out.new.items ≤ most)) }
    ensures err { IfErr result (IsTooLongAt most (length (out.old.items ++ replacement (shown_pattern pattern.now) stem.now))) }
{
    append(out, most, pattern.front)?;
    if pattern.keeps_stem {
        append(out, most, stem)?;
    }
    append(out, most, pattern.back)
}

/// Appends a value with each of its words changed, joined by one space.
pub(crate) fn append_changed_words(
    out: &mut Vec<u8>,
    most: usize,
    value: &[u8],
    change: &WordChange<'_>,
) -> Result<(), MacroFault>
    requires { length out.old.items ≤ most }
    ensures ok { OnOk result ((out.new.items ≡ out.old.items ++ changed_words (shown_change change.now) value.now)
        × (length out.new.items ≤ most)) }
    ensures err { IfErr result (IsTooLongAt most (length (out.old.items ++ changed_words (shown_change change.now) value.now))) }
{
    let Some((word, mut rest)) = next_word(value) else {
        return Ok(());
    };
    append_changed_word(out, most, word, change)?;
    while let Some((word, behind)) = next_word(rest) {
        append(out, most, b" ")?;
        append_changed_word(out, most, word, change)?;
        rest = behind;
    }
    Ok(())
}
