//! Words that are gathered byte by byte.
ghost use Rattle.std.specs.Prelude.{◌≡◌, ◌++◌, ◌∷◌, ◌+◌, ◌<◌, ◌≤◌, ◌^◌, ◌==◌, ◌&&◌, false, None, [], IfOk, OnOk};
ghost use Rattle.mk_depfiles.specs.Words.{backslashes, is_odd, ended};
ghost use Rattle.mk_depfiles.specs.Gathering.{read, held_count, Takes, Ends};
ghost use Rattle.mk_depfiles.specs.declared.gathering.Held.TheVariants.{Backslashes, Dollar};

use crate::refusal::Cause;
use byte_strings::{ByteStrings, is_blank};
use std::alloc::{AllocError, Global};

/// What stands at the end of a text that was read, and isn't a part of the word yet.
#[derive(Clone, Copy)]
pub enum Held {
    /// So many backslashes.
    Backslashes(usize),
    /// A `$` that another one has to follow.
    Dollar,
}

/// Words that were read, and the one that is begun.
#[derive(Drop)]
pub struct Gathering {
    words: ByteStrings,
    word: Vec<u8>,
    held: Held,
}

fn is_odd(count: usize) -> bool
    ensures { result ≡ is_odd count }
{
    count % 2 == 1
}

fn push_backslashes(out: &mut Vec<u8>, count: usize) -> Result<(), AllocError>
    ensures { OnOk result (out.new.items ≡ out.old.items ++ backslashes count) }
{
    for _ in 0..count {
        out.push(b'\\')?;
    }
    Ok(())
}

/// Adds a word, where it is one.
fn push_word(words: &mut ByteStrings, word: &[u8]) -> Result<(), AllocError>
    ensures { OnOk result (words.new ≡ words.old ++ ended word.now) }
{
    if word.is_empty() {
        return Ok(());
    }
    words.push(word)
}

impl Gathering {
    pub fn new(alloc: Global) -> Gathering
        ensures words { result.words ≡ [] }
        ensures word { result.word.items ≡ [] }
        ensures held { result.held ≡ Backslashes 0 }
    {
        Gathering {
            words: ByteStrings::empty(alloc),
            word: Vec::new(alloc),
            held: Held::Backslashes(0),
        }
    }

    /// Adds so many backslashes and a byte to the word.
    fn push(&mut self, count: usize, byte: u8) -> Result<(), AllocError>
        ensures words { OnOk result (self.new.words ≡ self.old.words) }
        ensures word { OnOk result (self.new.word.items ≡ (self.old.word.items ++ backslashes count) ++ byte ∷ []) }
        ensures held { OnOk result (self.new.held ≡ Backslashes 0) }
    {
        push_backslashes(&mut self.word, count)?;
        self.word.push(byte)?;
        self.held = Held::Backslashes(0);
        Ok(())
    }

    /// Adds so many backslashes, and puts the word behind the others.
    fn close_word(&mut self, count: usize) -> Result<(), AllocError>
        ensures words { OnOk result (self.new.words ≡ self.old.words ++ ended (self.old.word.items ++ backslashes count)) }
        ensures word { OnOk result (self.new.word.items ≡ []) }
        ensures held { OnOk result (self.new.held ≡ Backslashes 0) }
    {
        push_backslashes(&mut self.word, count)?;
        push_word(&mut self.words, self.word.as_slice())?;
        self.word.clear();
        self.held = Held::Backslashes(0);
        Ok(())
    }

    /// Ends the word behind so many backslashes more.
    fn end_word(&mut self, count: usize) -> Result<(), AllocError>
        ensures read { OnOk result (Ends self.old self.new count) }
        ensures held { OnOk result (held_count self.new.held ≤ 0) }
    {
        self.close_word(count)
    }

    /// Holds a `$` behind so many backslashes, which stand for themselves.
    fn hold_dollar(&mut self, count: usize) -> Result<(), AllocError>
        ensures words { OnOk result (self.new.words ≡ self.old.words) }
        ensures word { OnOk result (self.new.word.items ≡ self.old.word.items ++ backslashes count) }
        ensures held { OnOk result (self.new.held ≡ Dollar) }
    {
        push_backslashes(&mut self.word, count)?;
        self.held = Held::Dollar;
        Ok(())
    }

    /// Takes a byte behind so many backslashes, of which a `#` has one.
    fn take_plain(&mut self, count: usize, byte: u8) -> Result<(), AllocError>
        requires room { count + 1 < 2 ^ 64 }
        requires held { self.old.held ≡ Backslashes count }
        requires hash { (byte == 35 && count == 0) ≡ false }
        ensures takes { OnOk result (Takes self.old self.new byte None) }
        ensures held { OnOk result (held_count self.new.held ≤ count + 1) }
    {
        match byte {
            b'\\' => {
                self.held = Held::Backslashes(count + 1);
                Ok(())
            }
            b' ' | b'\t' if is_odd(count) => self.push(count / 2, byte),
            b' ' | b'\t' => self.end_word(count / 2),
            b'\n' => self.end_word(count / 2),
            b'#' => self.push(count - 1, byte),
            b'$' => self.hold_dollar(count),
            _ => self.push(count, byte),
        }
    }

    /// Takes a byte behind so many backslashes, or says why it can't stand there.
    fn take_behind(&mut self, count: usize, byte: u8) -> Result<Option<Cause>, AllocError>
        requires room { count + 1 < 2 ^ 64 }
        requires held { self.old.held ≡ Backslashes count }
        ensures takes { IfOk result (λ told. Takes self.old self.new byte told) }
        ensures held { IfOk result (λ told. held_count self.new.held ≤ count + 1) }
    {
        if byte == b'#' && count == 0 {
            return Ok(Some(Cause::BareHash));
        }
        self.take_plain(count, byte)?;
        Ok(None)
    }

    /// Takes a byte behind a `$`, which has to be another one.
    fn take_behind_dollar(&mut self, byte: u8) -> Result<Option<Cause>, AllocError>
        requires { self.old.held ≡ Dollar }
        ensures takes { IfOk result (λ told. Takes self.old self.new byte told) }
        ensures held { IfOk result (λ told. held_count self.new.held ≤ 1) }
    {
        if byte != b'$' {
            return Ok(Some(Cause::LoneDollar));
        }
        self.push(0, byte)?;
        Ok(None)
    }

    /// Takes the next byte of a line, or says why it can't stand there.
    pub fn take(&mut self, byte: u8) -> Result<Option<Cause>, AllocError>
        requires { held_count self.old.held + 1 < 2 ^ 64 }
        ensures takes { IfOk result (λ told. Takes self.old self.new byte told) }
        ensures held { IfOk result (λ told. held_count self.new.held ≤ held_count self.old.held + 1) }
    {
        match self.held {
            Held::Backslashes(count) => self.take_behind(count, byte),
            Held::Dollar => self.take_behind_dollar(byte),
        }
    }

    /// The words, where the line ends here.
    pub fn finish(mut self) -> Result<Result<ByteStrings, Cause>, AllocError>
        ensures { IfOk result (λ found. found ≡ read self []) }
    {
        match self.held {
            Held::Dollar => Ok(Err(Cause::LoneDollar)),
            Held::Backslashes(count) => {
                self.close_word(count / 2)?;
                let Gathering {
                    words,
                    word: _,
                    held: _,
                } = self;
                Ok(Ok(words))
            }
        }
    }
}
