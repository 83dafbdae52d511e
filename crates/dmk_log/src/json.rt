//! A line of JSON text (RFC 8259), an object that is written member by member.
ghost use Rattle.std.specs.Prelude.{◌≡◌, ◌<◌, ◌++◌, codes, map, OnOk, IfOk};
ghost use Rattle.std.specs.Fmt.{decimal};
ghost use Rattle.std.specs.List.{list_all};
ghost use Rattle.std.specs.Str.{is_utf8};
ghost use Rattle.dmk_log.specs.Json.{escaped, exact, hex_digit, is_special, json_string, list_of, member, name_member, names_member, numbered, shown};

use base64::engine::general_purpose::STANDARD;
use byte_strings::ByteStrings;
use itoa::Buffer;
use mk_lines::is_utf8;
use std::alloc::{AllocError, Global};

fn is_special(byte: u8) -> bool
    ensures { result ≡ is_special byte }
{
    byte == b'"' || byte == b'\\'
}

fn hex_digit(number: u8) -> u8
    requires { number < 16 }
    ensures { result ≡ hex_digit number }
{
    if number < 10 {
        b'0' + number
    } else {
        b'a' - 10 + number
    }
}

fn push_numbered(text: &mut Vec<u8>, byte: u8) -> Result<(), AllocError>
    ensures { OnOk result (text.new.items ≡ text.old.items ++ numbered byte) }
{
    text.extend_from_slice(b"\\u00")?;
    text.extend_from_slice(&[hex_digit(byte / 16), hex_digit(byte % 16)])
}

fn push_escaped(text: &mut Vec<u8>, byte: u8) -> Result<(), AllocError>
    ensures { OnOk result (text.new.items ≡ text.old.items ++ escaped byte) }
{
    if is_special(byte) {
        return text.extend_from_slice(&[b'\\', byte]);
    }
    if byte < 32 {
        push_numbered(text, byte)
    } else {
        text.extend_from_slice(&[byte])
    }
}

/// Adds a text in quotation marks.
fn push_string(text: &mut Vec<u8>, string: &[u8]) -> Result<(), AllocError>
    ensures { OnOk result (text.new.items ≡ text.old.items ++ json_string string.now) }
{
    text.extend_from_slice(b"\"")?;
    for byte in string {
        push_escaped(text, *byte)?;
    }
    text.extend_from_slice(b"\"")
}

fn push_key(text: &mut Vec<u8>, key: &[u8]) -> Result<(), AllocError>
    ensures { OnOk result (text.new.items ≡ text.old.items ++ (codes ",\"" ++ (key.now ++ codes "\":"))) }
{
    text.extend_from_slice(b",\"")?;
    text.extend_from_slice(key)?;
    text.extend_from_slice(b"\":")
}

fn are_utf8(names: &ByteStrings) -> bool
    ensures { result ≡ list_all is_utf8 names.now }
{
    names.iter().all(|name| is_utf8(name))
}

/// A line that isn't ended yet.
#[derive(Drop)]
pub(crate) struct Line {
    alloc: Global,
    text: Vec<u8>,
}

impl Line {
    /// The line of an event.
    pub(crate) fn of(alloc: Global, event: &str) -> Result<Line, AllocError>
        ensures { IfOk result (λ line. line.text.items ≡ codes "{\"event\":" ++ json_string event.now) }
    {
        let mut text = Vec::from_slice(alloc, b"{\"event\":")?;
        push_string(&mut text, event.as_bytes())?;
        Ok(Line { alloc, text })
    }

    pub(crate) fn number(&mut self, key: &str, number: u64) -> Result<(), AllocError>
        ensures { OnOk result (self.new.text.items ≡ self.old.text.items ++ member key.now (decimal number)) }
    {
        push_key(&mut self.text, key.as_bytes())?;
        let mut digits = Buffer::new();
        self.text
            .extend_from_slice(digits.format(number).as_bytes())
    }

    pub(crate) fn text(&mut self, key: &str, text: &str) -> Result<(), AllocError>
        ensures { OnOk result (self.new.text.items ≡ self.old.text.items ++ member key.now (json_string text.now)) }
    {
        push_key(&mut self.text, key.as_bytes())?;
        push_string(&mut self.text, text.as_bytes())
    }

    /// A name that may be no text.
    pub(crate) fn name(&mut self, key: &str, name: &[u8]) -> Result<(), AllocError>
        ensures { OnOk result (self.new.text.items ≡ self.old.text.items ++ name_member key.now name.now) }
    {
        push_key(&mut self.text, key.as_bytes())?;
        self.push_shown(name)?;
        if is_utf8(name) {
            return Ok(());
        }
        self.push_key_of_bytes(key)?;
        self.push_exact(name)
    }

    fn push_key_of_bytes(&mut self, key: &str) -> Result<(), AllocError>
        ensures { OnOk result (self.new.text.items ≡ self.old.text.items ++ (codes ",\"" ++ ((key.now ++ codes "_base64") ++ codes "\":"))) }
    {
        self.text.extend_from_slice(b",\"")?;
        self.text.extend_from_slice(key.as_bytes())?;
        self.text.extend_from_slice(b"_base64\":")
    }

    fn push_shown(&mut self, name: &[u8]) -> Result<(), AllocError>
        ensures { OnOk result (self.new.text.items ≡ self.old.text.items ++ shown name.now) }
    {
        let text = String::from_utf8_lossy(self.alloc, name)?;
        push_string(&mut self.text, text.as_bytes())
    }

    fn push_exact(&mut self, name: &[u8]) -> Result<(), AllocError>
        ensures { OnOk result (self.new.text.items ≡ self.old.text.items ++ exact name.now) }
    {
        let text = STANDARD.encode(self.alloc, name)?;
        push_string(&mut self.text, text.as_bytes())
    }

    /// Names, and beside them the bytes of all where one is no text.
    pub(crate) fn names(&mut self, key: &str, names: &ByteStrings) -> Result<(), AllocError>
        ensures { OnOk result (self.new.text.items ≡ self.old.text.items ++ names_member key.now names.now) }
    {
        push_key(&mut self.text, key.as_bytes())?;
        self.push_each_shown(names)?;
        if are_utf8(names) {
            return Ok(());
        }
        self.push_key_of_bytes(key)?;
        self.push_each_exact(names)
    }

    fn push_each_shown(&mut self, names: &ByteStrings) -> Result<(), AllocError>
        ensures { OnOk result (self.new.text.items ≡ self.old.text.items ++ list_of (map shown names.now)) }
    {
        self.text.extend_from_slice(b"[")?;
        let mut before: &[u8] = b"";
        for name in names {
            self.text.extend_from_slice(before)?;
            self.push_shown(name)?;
            before = b",";
        }
        self.text.extend_from_slice(b"]")
    }

    fn push_each_exact(&mut self, names: &ByteStrings) -> Result<(), AllocError>
        ensures { OnOk result (self.new.text.items ≡ self.old.text.items ++ list_of (map exact names.now)) }
    {
        self.text.extend_from_slice(b"[")?;
        let mut before: &[u8] = b"";
        for name in names {
            self.text.extend_from_slice(before)?;
            self.push_exact(name)?;
            before = b",";
        }
        self.text.extend_from_slice(b"]")
    }

    /// The text, which ends with the time.
    pub(crate) fn at(self, time: u64) -> Result<Vec<u8>, AllocError>
        ensures { IfOk result (λ line. line.items ≡ self.text.items ++ (member (codes "ns") (decimal time) ++ codes "}\n")) }
    {
        let mut line = self;
        line.number("ns", time)?;
        line.text.extend_from_slice(b"}\n")?;
        let Line { alloc: _, text } = line;
        Ok(text)
    }
}
