//! What a recipe line is told of job slots, and what stands before its text.
ghost use Rattle.std.specs.Prelude.{◌≡◌, ◌++◌, Some, IfOk, OnOk, option_map};
ghost use Rattle.std.specs.List.{flat_map};
ghost use Rattle.jb_flags.specs.Told.{shell_byte, shell_word, opening, opened_words, base_from, is_posix_shell, opens, IsPool, told_line};

use byte_strings::{ByteString, next_word};
use jb_auth::{Auth, read_auth};
use mk_recipe::Line;
use std::alloc::{AllocError, Global};

/// A quote of a shell between two texts between single quotes.
const QUOTE: &[u8] = b"'\\''";

const OPENED: &[u8] = b"exec 7<>";

const BOTH: &[u8] = b" 8>&7; ";

fn push_shell_byte(text: &mut Vec<u8>, byte: u8) -> Result<(), AllocError>
    ensures { OnOk result (text.new.items ≡ text.old.items ++ shell_byte byte) }
{
    if byte == b'\'' {
        text.extend_from_slice(QUOTE)?;
    } else {
        text.push(byte)?;
    }
    Ok(())
}

fn push_shell_bytes(text: &mut Vec<u8>, bytes: &[u8]) -> Result<(), AllocError>
    ensures { OnOk result (text.new.items ≡ text.old.items ++ flat_map shell_byte bytes.now) }
{
    for byte in bytes {
        push_shell_byte(text, *byte)?;
    }
    Ok(())
}

fn push_shell_word(text: &mut Vec<u8>, word: &[u8]) -> Result<(), AllocError>
    ensures { OnOk result (text.new.items ≡ text.old.items ++ shell_word word.now) }
{
    text.extend_from_slice(b"'")?;
    push_shell_bytes(text, word)?;
    text.extend_from_slice(b"'")?;
    Ok(())
}

// What opens the FIFO of a path for what stands behind.
fn opening(alloc: Global, path: &[u8]) -> Result<Vec<u8>, AllocError>
    ensures { IfOk result (λ text. text.items ≡ opening path.now) }
{
    let mut text = Vec::from_slice(alloc, OPENED)?;
    push_shell_word(&mut text, path)?;
    text.extend_from_slice(BOTH)?;
    Ok(text)
}

/// The words of job slots of a line for which a shell opens a pool, with so many recipes at once.
pub fn opened_words(alloc: Global, workers: u16) -> Result<Vec<u8>, AllocError>
    ensures { IfOk result (λ words. words.items ≡ opened_words workers) }
{
    let text = format!(in alloc; " -j{workers} --jobserver-auth=7,8")?;
    Vec::from_slice(alloc, text.as_bytes())
}

// What stands behind the last slash.
fn base_of(path: &[u8]) -> &[u8]
    ensures { result.now ≡ base_from path.now path.now }
{
    let mut base = path;
    let mut rest = path;
    while let Some((byte, behind)) = rest.split_first() {
        if *byte == b'/' {
            base = behind;
        }
        rest = behind;
    }
    base
}

fn is_posix_shell(name: &[u8]) -> bool
    ensures { result ≡ is_posix_shell name.now }
{
    name == b"sh".as_slice()
        || (name == b"bash".as_slice()
            || (name == b"dash".as_slice()
                || (name == b"ksh".as_slice()
                    || (name == b"zsh".as_slice() || name == b"ash".as_slice()))))
}

/// Whether the shell of this name opens descriptors as POSIX has it.
pub(crate) fn opens(shell: &[u8]) -> bool
    ensures { result ≡ opens shell.now }
{
    match next_word(shell) {
        None => true,
        Some((program, _arguments)) => is_posix_shell(base_of(program)),
    }
}

/// The path of the FIFO that is opened for a line with these words of job slots, where it may have that.
pub(crate) fn pool_in(words: &[u8], may: bool) -> Option<&[u8]>
    ensures { IsPool words.now may (option_map (λ path. path.now) result) }
{
    match read_auth(words) {
        Auth::Fifo(path) if may => Some(path),
        _ => None,
    }
}

/// The line as it is run where the FIFO of this path is opened for it.
pub(crate) fn opened_line(alloc: Global, line: &Line, path: &[u8]) -> Result<Line, AllocError>
    ensures { IfOk result (λ told. told ≡ told_line (Some path.now) line.now) }
{
    let mut text = opening(alloc, path)?;
    text.extend_from_slice(line.text.as_slice())?;
    Ok(Line {
        text: ByteString::new(text),
        is_printed: line.is_printed,
        is_ignored: line.is_ignored,
        is_exempt: line.is_exempt,
        is_always_run: line.is_always_run,
    })
}
