//! Which files a target was made of, as one text: its bytes, worked out from the form that docs/STATE_FILE.md has.

use st_marks::{Mark, Marks, Stamp, marks_of, read_marks, write_marks};
use std::alloc::{AllocError, Global};
use std::process::Abort;
use std::test::Fail;

const SOURCE: &[u8] = b"s.c";

/// A mark of each kind.
static MARKS: [Mark; 5] = [
    Mark::File(Stamp {
        time: 0x0102_0304_0506_0708,
        size: 120,
    }),
    Mark::Unknown,
    Mark::NoFile,
    Mark::Other,
    Mark::Own(Stamp {
        time: -2,
        size: 0xFFFF_FFFE,
    }),
];

/// Their text, behind that of the source.
static TEXT: [u8; 41] = [
    1, 3, 0, 0, 0, b's', b'.', b'c', 5, 0, 0, 0, 3, 8, 7, 6, 5, 4, 3, 2, 1, 120, 0, 0, 0, 0, 1, 2,
    4, 0xFE, 0xFF, 0xFF, 0xFF, 0xFF, 0xFF, 0xFF, 0xFF, 0xFE, 0xFF, 0xFF, 0xFF,
];

/// Bytes that are no text, and what is wrong with them.
static NO_TEXTS: [(&str, &[u8]); 9] = [
    ("no byte", &[]),
    ("neither a source nor none", &[2, 0, 0, 0, 0]),
    ("the source is cut off", &[1, 3, 0, 0, 0, b's', b'.']),
    ("no number of marks", &[0, 0, 0, 0]),
    ("a mark less than the number says", &[0, 2, 0, 0, 0, 1]),
    ("a mark more than the number says", &[0, 1, 0, 0, 0, 1, 1]),
    ("a mark of no kind", &[0, 1, 0, 0, 0, 5]),
    (
        "the last mark is cut off",
        &[0, 1, 0, 0, 0, 3, 0, 0, 0, 0, 0, 0, 0, 0, 0, 0, 0],
    ),
    (
        "a number as large as can be",
        &[0, 0xFF, 0xFF, 0xFF, 0xFF, 0, 0],
    ),
];

static FOUR_UNKNOWN: [Mark; 4] = [Mark::Unknown; 4];

static TWO_UNKNOWN: [Mark; 2] = [Mark::Unknown; 2];

// A table that is named in a function is written out at each of its steps, so each is named once.
fn marks() -> &'static [Mark] {
    &MARKS
}

fn text() -> &'static [u8] {
    &TEXT
}

fn four_unknown() -> &'static [Mark] {
    &FOUR_UNKNOWN
}

fn two_unknown() -> &'static [Mark] {
    &TWO_UNKNOWN
}

fn no_texts() -> &'static [(&'static str, &'static [u8])] {
    &NO_TEXTS
}

fn listed(alloc: Global, left: Marks<'_>) -> Result<Vec<Mark>, Fail> {
    let mut marks = Vec::new(alloc);
    for mark in left {
        marks.push(mark)?;
    }
    Ok(marks)
}

fn expect_marks(
    rt: &(impl Abort + AllocGlobal),
    name: &str,
    left: Marks<'_>,
    wanted: &[Mark],
) -> Result<(), Fail> {
    let marks = listed(rt.alloc(), left)?;
    assert_eq!(rt; marks.as_slice(), wanted, "{name}");
    Ok(())
}

fn expect_bytes(rt: &impl Abort, given: &[u8], wanted: &[u8]) {
    assert_eq!(rt; given, wanted);
}

fn expect_mark(rt: &impl Abort, given: Mark, wanted: Mark) {
    assert_eq!(rt; given, wanted);
}

/// The text, once more where memory was refused.
fn written(alloc: Global) -> Result<Vec<u8>, AllocError> {
    match write_marks(alloc, Some(SOURCE), &MARKS) {
        Err(_) => write_marks(alloc, Some(SOURCE), &MARKS),
        text => text,
    }
}

#[test]
fn a_mark_of_each_kind_is_written(rt: HostRuntime) -> Result<(), Fail> {
    let written = written(rt.alloc())?;
    expect_bytes(&rt, written.as_slice(), text());
    Ok(())
}

#[test]
fn no_source_and_no_marks_are_five_bytes(rt: HostRuntime) -> Result<(), Fail> {
    let text = write_marks(rt.alloc(), None, &[])?;
    expect_bytes(&rt, text.as_slice(), b"\0\0\0\0\0");
    Ok(())
}

#[test]
fn what_was_written_is_read(rt: HostRuntime) -> Result<(), Fail> {
    let said = read_marks(text()).ok_or("it is no text")?;
    expect_bytes(&rt, said.source.ok_or("it has no source")?, SOURCE);
    assert_eq!(rt; said.marks.len(), 5);
    expect_marks(&rt, "the text", said.marks, marks())
}

#[test]
fn marks_are_those_of_the_text_where_so_many_are_wanted(rt: HostRuntime) -> Result<(), Fail> {
    expect_marks(&rt, "as many", marks_of(text(), 5), marks())?;
    expect_marks(&rt, "one less", marks_of(text(), 4), four_unknown())
}

fn expect_no_text(rt: &(impl Abort + AllocGlobal), name: &str, bytes: &[u8]) -> Result<(), Fail> {
    assert!(rt; read_marks(bytes).is_none(), "{name}");
    expect_marks(rt, name, marks_of(bytes, 2), two_unknown())
}

#[test]
fn bytes_that_are_no_text_are_unknown_marks(rt: HostRuntime) -> Result<(), Fail> {
    for (name, bytes) in no_texts() {
        expect_no_text(&rt, name, bytes)?;
    }
    Ok(())
}

#[test]
fn a_time_is_near_and_a_size_is_modulo_2_to_the_32(rt: HostRuntime) -> Result<(), Fail> {
    let stamp = Stamp {
        time: i64::MIN,
        size: 7,
    };
    let first = i128::from(i64::MIN);
    expect_mark(&rt, Mark::file(first, 0x3_0000_0007), Mark::File(stamp));
    expect_mark(&rt, Mark::own(first, 7), Mark::Own(stamp));
    expect_mark(&rt, Mark::file(first - 1, 7), Mark::Unknown);
    expect_mark(&rt, Mark::own(i128::from(i64::MAX) + 1, 7), Mark::Unknown);
    Ok(())
}
