//! The notation of bytes. A printable one stands for itself, any other, a blank, `\`, `{` and `}` for `\` and two digits,
//! and `{N*TEXT}` for a text N times.
use crate::hex::hex_digit;
use crate::row_fault::RowFault;
use std::alloc::{AllocError, Global};

const DIGITS: &[u8] = b"0123456789abcdef";

/// What the next byte of the notation is read as.
#[derive(Clone, Copy)]
enum Mode {
    Plain,
    FirstDigit,
    SecondDigit(u8),
    Times(usize),
}

/// A repetition that is yet to be closed, and where it began.
#[derive(Clone, Copy, Drop)]
struct Repeated {
    start: usize,
    times: usize,
}

#[derive(Drop)]
struct Reader {
    out: Vec<u8>,
    open: Vec<Repeated>,
    mode: Mode,
}

impl Reader {
    fn take(&mut self, alloc: Global, byte: u8) -> Result<(), RowFault> {
        match self.mode {
            Mode::Plain => self.take_plain(alloc, byte),
            Mode::FirstDigit => {
                self.mode = Mode::SecondDigit(hex_digit(byte)?);
                Ok(())
            }
            Mode::SecondDigit(high) => {
                self.out.push(high << 4 | hex_digit(byte)?)?;
                self.mode = Mode::Plain;
                Ok(())
            }
            Mode::Times(times) => self.take_times(times, byte),
        }
    }

    fn take_plain(&mut self, alloc: Global, byte: u8) -> Result<(), RowFault> {
        match byte {
            b'\\' => self.mode = Mode::FirstDigit,
            b'{' => self.mode = Mode::Times(0),
            b'}' => return self.close(alloc),
            _ => self.out.push(byte)?,
        }
        Ok(())
    }

    fn take_times(&mut self, times: usize, byte: u8) -> Result<(), RowFault> {
        if byte == b'*' {
            self.mode = Mode::Plain;
            let start = self.out.len();
            self.open.push(Repeated { start, times })?;
            return Ok(());
        }
        if !byte.is_ascii_digit() {
            return Err(RowFault::Word);
        }
        let ones = usize::from(hex_digit(byte)?);
        self.mode = Mode::Times(times.saturating_mul(10).saturating_add(ones));
        Ok(())
    }

    fn close(&mut self, alloc: Global) -> Result<(), RowFault> {
        let Some(Repeated { start, times }) = self.open.pop() else {
            return Err(RowFault::Word);
        };
        let text = Vec::from_slice(alloc, self.out.get(start..).unwrap_or(b"".as_slice()))?;
        self.out.truncate(start);
        for _ in 0..times {
            self.out.extend_from_slice(text.as_slice())?;
        }
        Ok(())
    }
}

/// The bytes of a text in the notation.
pub fn read(alloc: Global, text: &str) -> Result<Vec<u8>, RowFault> {
    let mut reader = Reader {
        out: Vec::new(alloc),
        open: Vec::new(alloc),
        mode: Mode::Plain,
    };
    for byte in text.bytes() {
        reader.take(alloc, byte)?;
    }
    if !reader.open.is_empty() || !matches!(reader.mode, Mode::Plain) {
        return Err(RowFault::Word);
    }
    let Reader {
        out,
        open: _,
        mode: _,
    } = reader;
    Ok(out)
}

fn digit_of(number: u8) -> char {
    char::from(DIGITS.get(usize::from(number)).copied().unwrap_or(b'?'))
}

fn is_plain(byte: u8) -> bool {
    byte.is_ascii_graphic() && byte != b'\\' && byte != b'{' && byte != b'}'
}

/// Says bytes in the notation, each by itself.
pub fn say(said: &mut String, bytes: &[u8]) -> Result<(), AllocError> {
    for byte in bytes {
        if is_plain(*byte) {
            said.push(char::from(*byte))?;
        } else {
            said.push('\\')?;
            said.push(digit_of(*byte >> 4))?;
            said.push(digit_of(*byte & 15))?;
        }
    }
    Ok(())
}

/// The same; of no bytes, `nothing`.
pub fn say_all(said: &mut String, bytes: &[u8]) -> Result<(), AllocError> {
    if bytes.is_empty() {
        return said.push_str("nothing");
    }
    say(said, bytes)
}
