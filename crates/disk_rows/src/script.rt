//! Calls of a disk as words, and their answers.
//!
//! A call is a word, its side `A` or `B` first: `Al` asks for the length, `Ar4` reads two bytes from 4 on, `Ar` reads none
//! from 0 on, `Aw4PQ` writes `PQ` at 4, `Ac3` cuts to 3, and `As` syncs. The answer is the length or the bytes, `+` where
//! there is nothing to say, and `!` for a fault.
use row_files::RowFault;
use st_disk::{DeviceFault, Disk, Which};
use std::alloc::AllocError;

#[derive(Clone, Copy)]
enum Call<'a> {
    Len,
    ReadNone,
    ReadTwo(usize),
    Write(usize, &'a [u8]),
    Cut(usize),
    Sync,
}

#[derive(Clone, Copy)]
enum Answer {
    Done,
    Length(usize),
    Bytes(u8, u8),
}

/// Makes the calls of a script, and says their answers one behind the other.
pub(crate) fn answers<D: Disk>(
    said: &mut String,
    disk: &mut D,
    script: &str,
) -> Result<(), RowFault> {
    for word in script.split(' ') {
        make_call(said, disk, word)?;
    }
    Ok(())
}

/// Makes one call, and says its answer.
pub(crate) fn make_call<D: Disk>(
    said: &mut String,
    disk: &mut D,
    word: &str,
) -> Result<(), RowFault> {
    let (side, call) = word_parts(word)?;
    let answer = made(disk, side, call);
    Ok(say(said, answer)?)
}

fn word_parts(word: &str) -> Result<(Which, Call<'_>), RowFault> {
    match word.as_bytes() {
        [b'A', call @ ..] => Ok((Which::A, call_of(call)?)),
        [b'B', call @ ..] => Ok((Which::B, call_of(call)?)),
        _ => Err(RowFault::Word),
    }
}

fn say(said: &mut String, answer: Result<Answer, DeviceFault>) -> Result<(), AllocError> {
    match answer {
        Ok(Answer::Done) => said.push('+'),
        Ok(Answer::Length(len)) => said.push(char::from(b'0' + (len % 10) as u8)),
        Ok(Answer::Bytes(first, second)) => {
            said.push(char::from(first))?;
            said.push(char::from(second))
        }
        Err(DeviceFault) => said.push('!'),
    }
}

fn call_of(call: &[u8]) -> Result<Call<'_>, RowFault> {
    match call {
        [b'l'] => Ok(Call::Len),
        [b'r'] => Ok(Call::ReadNone),
        [b'r', at] => Ok(Call::ReadTwo(place(*at)?)),
        [b'w', at, bytes @ ..] => Ok(Call::Write(place(*at)?, bytes)),
        [b'c', len] => Ok(Call::Cut(place(*len)?)),
        [b's'] => Ok(Call::Sync),
        _ => Err(RowFault::Word),
    }
}

fn place(digit: u8) -> Result<usize, RowFault> {
    match digit {
        b'0'..=b'9' => Ok(usize::from(digit - b'0')),
        _ => Err(RowFault::Word),
    }
}

fn made<D: Disk>(disk: &mut D, side: Which, call: Call<'_>) -> Result<Answer, DeviceFault> {
    match call {
        Call::Len => Ok(Answer::Length(disk.len(side)?)),
        Call::ReadNone => done(disk.read(side, 0, &mut [])),
        Call::ReadTwo(at) => read_two(disk, side, at),
        Call::Write(at, bytes) => done(write(disk, side, at, bytes)),
        Call::Cut(len) => done(cut(disk, side, len)),
        Call::Sync => done(disk.sync(side)),
    }
}

fn done(made: Result<(), DeviceFault>) -> Result<Answer, DeviceFault> {
    match made {
        Ok(()) => Ok(Answer::Done),
        Err(fault) => Err(fault),
    }
}

// The calls, within what the disk says of its length. At 0 it isn't asked.
fn read_two<D: Disk>(disk: &mut D, side: Which, at: usize) -> Result<Answer, DeviceFault> {
    let len = disk.len(side)?;
    if at > len || len - at < 2 {
        return Err(DeviceFault);
    }
    let mut bytes = [0; 2];
    disk.read(side, at, &mut bytes)?;
    Ok(Answer::Bytes(bytes[0], bytes[1]))
}

fn write<D: Disk>(disk: &mut D, side: Which, at: usize, bytes: &[u8]) -> Result<(), DeviceFault> {
    if at == 0 {
        return disk.write_at(side, 0, bytes);
    }
    if at > disk.len(side)? {
        return Err(DeviceFault);
    }
    disk.write_at(side, at, bytes)
}

fn cut<D: Disk>(disk: &mut D, side: Which, len: usize) -> Result<(), DeviceFault> {
    if len == 0 {
        return disk.cut(side, 0);
    }
    if len > disk.len(side)? {
        return Err(DeviceFault);
    }
    disk.cut(side, len)
}
