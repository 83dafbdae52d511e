//! What is told of words that can't be read.
use std::io::{self, Write};

/// What clap puts before the option that may be meant.
const SIMILAR: &str = "a similar argument exists: ";

/// The first line of a text.
fn first_line(text: &str) -> &str {
    match text.split_once('\n') {
        Some((line, _)) => line,
        None => text,
    }
}

/// Tells in two lines what clap says of a mistake in many: the mistake, and the option that is meant, or what lists all.
pub fn write_mistake<W: Write>(out: &mut W, answer: &str) -> io::Result<()> {
    let line = first_line(answer);
    let mistake = line.strip_prefix("error: ").unwrap_or(line);
    match answer.split_once(SIMILAR) {
        Some((_, option)) => {
            let option = first_line(option);
            writeln!(out, "dmk: {mistake}\ndmk: did you mean {option}?")
        }
        None => writeln!(out, "dmk: {mistake}\ndmk: dmk --help lists the options"),
    }
}
