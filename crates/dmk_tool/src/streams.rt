//! What is told on standard error. A terminal gets no control characters.

use plain_text::Plain;
use std::fmt;
use std::io::{IsTerminal, Write};

/// A line, behind the program's name and this front.
pub fn tell<T: fmt::Display>(rt: HostRuntime, front: &str, text: &T) {
    let mut stream = rt.stderr();
    let _ = writeln!(Plain::over(&mut stream), "dmk_tool: {front}{text}");
}

/// A line about a name, which may be any bytes.
pub fn tell_of(rt: HostRuntime, front: &str, name: &[u8], text: &str) {
    let mut stream = rt.stderr();
    if stream.is_terminal() {
        tell_of_name(&mut Plain::over(&mut stream), front, name, text);
    } else {
        tell_of_name(&mut stream, front, name, text);
    }
}

// That it can't be told changes nothing.
fn tell_of_name<W: Write>(stream: &mut W, front: &str, name: &[u8], text: &str) {
    let _ = write!(stream, "dmk_tool: {front}");
    let _ = stream.write_all(name);
    let _ = writeln!(stream, ": {text}");
}
