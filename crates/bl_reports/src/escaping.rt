//! JSON inside of a page.

use serde::Serialize;
use std::alloc::{AllocError, Global};

/// Appends a value as JSON in which stands nothing that ends a script or a line of one, and no `&`.
pub fn add_json<T: Serialize>(
    alloc: Global,
    text: &mut String,
    value: &T,
) -> Result<(), AllocError> {
    let Ok(json) = serde_json::to_string(alloc, value) else {
        return Err(AllocError);
    };
    add_escaped(text, json.as_str())
}

/// Such characters stand in the strings of JSON alone, where a number may stand for each.
fn add_escaped(text: &mut String, json: &str) -> Result<(), AllocError> {
    for character in json.chars() {
        match character {
            '<' => text.push_str("\\u003c")?,
            '>' => text.push_str("\\u003e")?,
            '&' => text.push_str("\\u0026")?,
            '\u{2028}' => text.push_str("\\u2028")?,
            '\u{2029}' => text.push_str("\\u2029")?,
            _ => text.push(character)?,
        }
    }
    Ok(())
}
