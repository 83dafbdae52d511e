//! What MAKEFLAGS says of options and definitions, and what makes below are told of them. Only in the wide profile.

ghost use Rattle.std.specs.Prelude.{◌≡◌, false, None, IfOk};
ghost use Rattle.mk_profile.specs.Profile.{is_wide};

use crate::folders::{folder_in, long_folder, push_folders, take_folder};
use crate::loads::{load_in, long_load, may_be_load};
use crate::option_table::{HELD, UNBOUND};
use crate::output::Output;
use crate::request::Later;
use bd_lists::Variable;
use byte_strings::ByteStrings;
use dmk_reading::{Options, is_option_letter};
use jb_flags::{
    Handed, Load, definition_words, has_value, jobs_word, load_word, opened_words, words_of,
};
use mk_eval::doubled_text;
use std::alloc::{AllocError, Global};

/// The long options that are taken, and handed on.
const HIDES_FOLDER: &[u8] = b"--no-print-directory";

const TELLS_UNDEFINED: &[u8] = b"--warn-undefined-variables";

fn is_long_taken(word: &[u8]) -> bool {
    word == HIDES_FOLDER || word == TELLS_UNDEFINED
}

/// How what recipes write is to be held together by what stands behind the option's letter; None where no such word does.
fn output_by(word: &[u8]) -> Option<Output> {
    if word.is_empty() {
        return Output::of(HELD);
    }
    Output::of(str::from_utf8(word).ok()?)
}

/// How the letters of options have it held: a value takes what stands behind its letter.
fn output_in(letters: &[u8]) -> Option<Output> {
    let at = letters.iter().position(|letter| has_value(*letter))?;
    output_by(letters[at..].strip_prefix(b"O")?)
}

/// How a long option has it held.
fn long_output(word: &[u8]) -> Option<Output> {
    match word.strip_prefix(b"--output-sync")? {
        [b'=', word @ ..] => output_by(word),
        [] => Output::of(HELD),
        _ => None,
    }
}

/// Appends the option by which what recipes write is held so, as makes have it: this word.
fn push_output(words: &mut Vec<u8>, word: &str) -> Result<(), AllocError> {
    words.extend_from_slice(b"-O")?;
    words.extend_from_slice(word.as_bytes())
}

/// GNU make's word for how what recipes write is held, where that is said and it has one.
fn output_word(later: Later) -> Option<&'static str> {
    later.output?.word()
}

/// Takes how what recipes write is to be held together, where that is said.
fn take_output(
    alloc: Global,
    taken: &mut ByteStrings,
    output: Option<Output>,
) -> Result<(), AllocError> {
    if let Some(word) = output.and_then(Output::word) {
        let mut taken_word = Vec::new(alloc);
        push_output(&mut taken_word, word)?;
        taken.push(&taken_word)?;
    }
    Ok(())
}

/// The option that has no further recipe begin from this load on, as a word of the command line.
fn load_option(alloc: Global, load: Option<Load>) -> Result<Vec<u8>, AllocError> {
    match load {
        Some(load) => load_word(alloc, load),
        None => {
            let mut word = Vec::from_slice(alloc, b" -l")?;
            word.extend_from_slice(UNBOUND.as_bytes())?;
            Ok(word)
        }
    }
}

/// Takes from which load on no further recipe begins, where that is said: by what stands behind the option, or by the next word. One that
/// is none is passed over.
fn take_load(
    alloc: Global,
    taken: &mut ByteStrings,
    said: Option<&[u8]>,
    next: Option<&[u8]>,
) -> Result<(), AllocError> {
    let load = match said {
        None => return Ok(()),
        Some([]) => match next {
            Some(word) if may_be_load(word) => Load::of(word),
            _ => None,
        },
        Some(word) => match Load::of(word) {
            Some(load) => Some(load),
            None => return Ok(()),
        },
    };
    let word = load_option(alloc, load)?;
    taken.push(word.get(1..).unwrap_or(&[]))
}

/// Appends the options of a word that are taken, as a word of the command line.
fn push_options(
    alloc: Global,
    taken: &mut ByteStrings,
    letters: &[u8],
    next: Option<&[u8]>,
) -> Result<(), AllocError> {
    let mut word = vec![in alloc; b'-'; 1]?;
    for letter in letters {
        if has_value(*letter) {
            break;
        }
        if is_option_letter(*letter) {
            word.push(*letter)?;
        }
    }
    if word.len() > 1 {
        taken.push(&word)?;
    }
    take_folder(alloc, taken, folder_in(letters), next)?;
    take_load(alloc, taken, load_in(letters), next)?;
    take_output(alloc, taken, output_in(letters))
}

/// Takes a long option that has a value.
fn take_long(
    alloc: Global,
    taken: &mut ByteStrings,
    word: &[u8],
    next: Option<&[u8]>,
) -> Result<(), AllocError> {
    take_folder(alloc, taken, long_folder(word), next)?;
    take_load(alloc, taken, long_load(word), next)?;
    take_output(alloc, taken, long_output(word))
}

/// The options and definitions of MAKEFLAGS, as words of the command line. The first word may be letters without a hyphen; behind `--` there
/// are definitions alone.
pub fn taken_words(alloc: Global, makeflags: &[u8]) -> Result<ByteStrings, AllocError> {
    let words = words_of(alloc, makeflags)?;
    let mut taken = ByteStrings::empty(alloc);
    let mut are_letters = true;
    let mut has_options = true;
    let mut ahead = words.iter();
    let _first = ahead.next();
    for word in &words {
        let next = ahead.next();
        if word == b"--".as_slice() {
            has_options = false;
        } else if has_options {
            take_word(alloc, &mut taken, word, next, are_letters)?;
        } else if !word.starts_with(b"-") && word.contains(&b'=') {
            taken.push(word)?;
        }
        are_letters = false;
    }
    Ok(taken)
}

/// Takes what a word before `--` says. `are_letters`: it is the first one.
fn take_word(
    alloc: Global,
    taken: &mut ByteStrings,
    word: &[u8],
    next: Option<&[u8]>,
    are_letters: bool,
) -> Result<(), AllocError> {
    match word.strip_prefix(b"-") {
        Some([b'-', ..]) if is_long_taken(word) => taken.push(word),
        Some([b'-', ..]) => take_long(alloc, taken, word, next),
        Some(letters) => push_options(alloc, taken, letters, next),
        None if word.contains(&b'=') => taken.push(word),
        None if are_letters => push_options(alloc, taken, word, next),
        None => Ok(()),
    }
}

/// The letters of options that makes below are told.
fn option_word(alloc: Global, options: &Options, later: Later) -> Result<Vec<u8>, AllocError> {
    let letters = [
        (options.makes_all, b'B'),
        (later.environment_counts, b'e'),
        (options.ignores_statuses, b'i'),
        (options.goes_on, b'k'),
        (options.is_dry && !options.asks, b'n'),
        (options.asks, b'q'),
        (options.makefiles.without_rules, b'r'),
        (later.without_macros, b'R'),
        (options.is_silent, b's'),
        (later.tells_folder, b'w'),
    ];
    word_of(alloc, &letters)
}

/// The word of those letters that are set.
fn word_of(alloc: Global, letters: &[(bool, u8)]) -> Result<Vec<u8>, AllocError> {
    let mut word = Vec::new(alloc);
    for (is_set, letter) in letters {
        if *is_set {
            if word.is_empty() {
                word.push(b'-')?;
            }
            word.push(*letter)?;
        }
    }
    Ok(word)
}

/// The options that makes below are told: a word of letters, and behind it one with a value and a long one (GNU make).
fn option_words(alloc: Global, options: &Options, later: Later) -> Result<Vec<u8>, AllocError> {
    let mut words = option_word(alloc, options, later)?;
    push_folders(&mut words, &options.makefiles.folders)?;
    if let Some(load) = later.most_load {
        words.extend_from_slice(&load_word(alloc, load)?)?;
    }
    if let Some(word) = output_word(later) {
        words.push(b' ')?;
        push_output(&mut words, word)?;
    }
    if later.hides_folder {
        words.push(b' ')?;
        words.extend_from_slice(HIDES_FOLDER)?;
    }
    if later.tells_undefined {
        words.push(b' ')?;
        words.extend_from_slice(TELLS_UNDEFINED)?;
    }
    Ok(words)
}

/// The words of MAKEFLAGS that tell of a jobserver, as they stand there before the definitions.
fn push_jobserver(words: &mut Vec<u8>, makeflags: &[u8]) -> Result<(), AllocError> {
    for word in makeflags.split(|byte| *byte == b' ') {
        if word == b"--".as_slice() {
            break;
        }
        if word.starts_with(b"--jobserver-") {
            words.push(b' ')?;
            words.extend_from_slice(word)?;
        }
    }
    Ok(())
}

/// What makes below are told of job slots where they share those of a make above: with one worker here they are to have one too, and no
/// jobserver, by which GNU make would have more.
fn shared_slots(alloc: Global, workers: u16, makeflags: &[u8]) -> Result<Vec<u8>, AllocError> {
    let mut words = jobs_word(alloc, workers)?;
    if workers > 1 {
        push_jobserver(&mut words, makeflags)?;
    }
    Ok(words)
}

/// What they are told where they share none: one each, which is said where it was said how many.
fn own_slot(alloc: Global, has_jobs: bool) -> Result<Vec<u8>, AllocError> {
    if has_jobs {
        return jobs_word(alloc, 1);
    }
    Ok(Vec::new(alloc))
}

/// The definitions of the command line, which stand behind so many others.
fn definitions_behind(options: &Options, before: usize) -> &[Variable] {
    options.definitions.get(before..).unwrap_or(&[])
}

/// What makes below are told of the options, and of the definitions of the command line, which stand behind so many others.
pub fn handed_on(
    alloc: Global,
    options: &Options,
    later: Later,
    before: usize,
    makeflags: &[u8],
) -> Result<Option<Handed>, AllocError>
    ensures strict { is_wide options.now.profile ≡ false → IfOk result (λ handed. handed ≡ None) }
{
    if !options.profile.is_wide() {
        return Ok(None);
    }
    let definitions = definitions_behind(options, before);
    let below = later.level.saturating_add(1);
    let level = format!(in alloc; "{below}")?;
    Ok(Some(Handed {
        options: option_words(alloc, options, later)?,
        slots: shared_slots(alloc, options.workers, makeflags)?,
        alone: own_slot(alloc, later.has_jobs)?,
        opened: opened_words(alloc, options.workers)?,
        definitions: definition_words(alloc, definitions)?,
        level: Vec::from_slice(alloc, level.as_bytes())?,
    }))
}

/// Options as macros see them: the word of letters that they begin with without its hyphen, and without those by which nothing is run: a
/// recipe that holds them is judged as in a run.
fn letters_of(alloc: Global, words: &[u8]) -> Result<Vec<u8>, AllocError> {
    let mut letters = Vec::new(alloc);
    let mut are_letters = true;
    for byte in words {
        are_letters = are_letters && *byte != b' ';
        if !are_letters || !b"-nq".contains(byte) {
            letters.push(*byte)?;
        }
    }
    Ok(letters)
}

/// MAKEFLAGS as macros see it in the wide profile: the options, and the definitions of the command line, as they are handed on (GNU make);
/// None in the strict one.
pub fn flags_seen(
    alloc: Global,
    options: &Options,
    later: Later,
    before: usize,
) -> Result<Option<Vec<u8>>, AllocError>
    ensures strict { is_wide options.now.profile ≡ false → IfOk result (λ flags. flags ≡ None) }
{
    if !options.profile.is_wide() {
        return Ok(None);
    }
    let mut text = letters_of(alloc, &option_words(alloc, options, later)?)?;
    text.extend_from_slice(&definition_words(alloc, definitions_behind(options, before))?)?;
    Ok(Some(doubled_text(alloc, &text)?))
}
