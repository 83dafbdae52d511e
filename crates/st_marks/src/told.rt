//! Marks in words, as users read them.

ghost use Rattle.std.specs.Prelude.{◌≡◌, ◌<◌, ◌≤◌, ◌+◌, ◌++◌, length};
ghost use Rattle.std.specs.Fmt.{decimal};
ghost use Rattle.arrayvec.specs.ArrayVec.{array_vec_len};
ghost use Rattle.st_marks.specs.Told.{digit, nine_digits, seconds_text, sign_text, time_text, stamp_text, mark_text};

use crate::mark::{Mark, Stamp};
use arrayvec::ArrayVec;
use itoa::Buffer;

// None is longer: `own `, a sign, 20 digits, a point, 9 digits, a blank and 20 digits.
const MAX_TEXT: usize = 64;

const NANOSECONDS: u64 = 1_000_000_000;

/// A mark in words: `unknown`, `no file`, `other`, or of a file its time, in seconds since 1970 with nine digits behind the point,
/// and its size; `own` stands in front of these where the recipe writes the file.
pub fn mark_text(mark: Mark) -> ArrayVec<u8, MAX_TEXT>
    ensures { result.items ≡ mark_text mark }
{
    let mut text = ArrayVec::new();
    match mark {
        Mark::Unknown => put(&mut text, b"unknown"),
        Mark::NoFile => put(&mut text, b"no file"),
        Mark::Other => put(&mut text, b"other"),
        Mark::File(stamp) => put_stamp(&mut text, stamp),
        Mark::Own(stamp) => {
            put(&mut text, b"own ");
            put_stamp(&mut text, stamp);
        }
    }
    text
}

fn put(text: &mut ArrayVec<u8, MAX_TEXT>, part: &[u8])
    requires { array_vec_len text.old + length part.now ≤ 64 }
    ensures items { text.new.items ≡ text.old.items ++ part.now }
    ensures len { array_vec_len text.new ≡ array_vec_len text.old + length part.now }
{
    text.try_extend_from_slice(part).unwrap();
}

fn put_stamp(text: &mut ArrayVec<u8, MAX_TEXT>, stamp: Stamp)
    requires { array_vec_len text.old ≤ 4 }
    ensures { text.new.items ≡ text.old.items ++ stamp_text stamp }
{
    put_time(text, stamp.time);
    put(text, b" ");
    put_number(text, u64::from(stamp.size));
}

fn put_time(text: &mut ArrayVec<u8, MAX_TEXT>, time: i64)
    requires { array_vec_len text.old ≤ 4 }
    ensures items { text.new.items ≡ text.old.items ++ time_text time }
    ensures len { array_vec_len text.new ≤ array_vec_len text.old + 31 }
{
    put_sign(text, time);
    let nanoseconds = time.unsigned_abs();
    put_number(text, nanoseconds / NANOSECONDS);
    put(text, b".");
    put(text, &nine_digits(nanoseconds % NANOSECONDS));
}

fn put_sign(text: &mut ArrayVec<u8, MAX_TEXT>, time: i64)
    requires { array_vec_len text.old ≤ 4 }
    ensures items { text.new.items ≡ text.old.items ++ sign_text time }
    ensures len { array_vec_len text.new ≤ array_vec_len text.old + 1 }
{
    if time >= 0 {
        return;
    }
    put(text, b"-");
}

fn put_number(text: &mut ArrayVec<u8, MAX_TEXT>, number: u64)
    requires { array_vec_len text.old + 20 ≤ 64 }
    ensures items { text.new.items ≡ text.old.items ++ decimal number }
    ensures len { array_vec_len text.new ≤ array_vec_len text.old + 20 }
{
    let mut digits = Buffer::new();
    put(text, digits.format(number).as_bytes());
}

fn nine_digits(number: u64) -> [u8; 9]
    ensures { result ≡ nine_digits number }
{
    [
        digit(100_000_000, number),
        digit(10_000_000, number),
        digit(1_000_000, number),
        digit(100_000, number),
        digit(10_000, number),
        digit(1_000, number),
        digit(100, number),
        digit(10, number),
        digit(1, number),
    ]
}

fn digit(power: u64, number: u64) -> u8
    requires { 0 < power }
    ensures { result ≡ digit power number }
{
    b'0' + (number / power % 10) as u8
}
