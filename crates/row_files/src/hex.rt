//! Bytes as hexadecimal digits.
use crate::row_fault::RowFault;

/// The value of a digit.
pub fn hex_digit(byte: u8) -> Result<u8, RowFault> {
    match byte {
        b'0'..=b'9' => Ok(byte - b'0'),
        b'a'..=b'f' => Ok(byte - b'a' + 10),
        _ => Err(RowFault::Word),
    }
}

/// Adds the bytes of a text of two digits a byte.
pub fn read_hex(out: &mut Vec<u8>, text: &str) -> Result<(), RowFault> {
    let mut high = None;
    for byte in text.bytes() {
        let digit = hex_digit(byte)?;
        match high {
            Some(first) => {
                out.push(first << 4 | digit)?;
                high = None;
            }
            None => high = Some(digit),
        }
    }
    if high.is_some() {
        return Err(RowFault::Word);
    }
    Ok(())
}
