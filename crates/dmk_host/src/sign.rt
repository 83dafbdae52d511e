//! The sign by which a word of the command line defines a macro.
use bd_lists::Variable;
use byte_strings::trim_end;

/// What stands between the name and the `=`.
#[derive(Clone, Copy)]
pub enum Sign {
    /// `:` and `::`: the text is expanded once, and so is what is appended to it.
    Fixed,
    /// `:::`: the text is expanded once.
    Once,
    /// `+`
    Appended,
    /// `?`
    IfUndefined,
    /// `!`
    Output,
}

/// A definition by a sign.
#[derive(Clone, Copy)]
pub struct Signed<'a> {
    pub name: &'a [u8],
    pub sign: Sign,
    pub text: &'a [u8],
}

fn sign_of(last: u8, colons: usize) -> Option<Sign> {
    match last {
        b':' if colons > 1 => Some(Sign::Once),
        b':' => Some(Sign::Fixed),
        b'+' => Some(Sign::Appended),
        b'?' => Some(Sign::IfUndefined),
        b'!' => Some(Sign::Output),
        _ => None,
    }
}

fn without_colons(name: &[u8]) -> &[u8] {
    let mut front = name;
    for _ in 0..name.len() {
        match front.split_last() {
            Some((b':', before)) => front = before,
            _ => break,
        }
    }
    front
}

/// The definition by its sign, where it has one.
pub fn by_sign(variable: &Variable) -> Option<Signed<'_>> {
    let (last, before) = variable.name.as_slice().split_last()?;
    let front = without_colons(before);
    let sign = sign_of(*last, before.len().saturating_sub(front.len()))?;
    let name = match sign {
        Sign::Fixed | Sign::Once => trim_end(front),
        _ => trim_end(before),
    };
    if name.is_empty() {
        return None;
    }
    let text = variable.value.as_slice();
    Some(Signed { name, sign, text })
}
