//! Texts that aren't expanded again.
ghost use Rattle.std.specs.Prelude.{◌≡◌, ◌≤◌, ◌++◌, length, IfOk, OnOk};
ghost use Rattle.std.specs.List.{position_or_len};
ghost use Rattle.mk_lines.specs.Text.{is_dollar};
ghost use Rattle.mk_eval.specs.Static.{doubled_byte, doubled};

use std::alloc::{AllocError, Global};

fn push_doubled(out: &mut Vec<u8>, byte: u8) -> Result<(), AllocError>
    ensures { OnOk result (out.new.items ≡ out.old.items ++ doubled_byte byte) }
{
    if byte == b'$' {
        out.push(b'$')?;
    }
    out.push(byte)?;
    Ok(())
}

/// How many bytes stand before the first `$`.
fn plain_len(text: &[u8]) -> usize
    ensures value { result ≡ position_or_len is_dollar text.now }
    ensures within { result ≤ length text.now }
{
    let mut count = 0;
    while count < text.len() && text[count] != b'$' {
        count += 1;
    }
    count
}

/// Adds what stands before the first `$`, and answers the rest.
fn push_run<'t>(out: &mut Vec<u8>, text: &'t [u8]) -> Result<&'t [u8], AllocError>
    ensures whole { IfOk result (λ rest. out.new.items ++ doubled rest.now ≡ out.old.items ++ doubled text.now) }
    ensures shorter { IfOk result (λ rest. length rest.now ≤ length text.now) }
{
    let (run, rest) = text.split_at(plain_len(text));
    out.extend_from_slice(run)?;
    Ok(rest)
}

/// The text with each `$` doubled, which expands to it.
pub fn doubled(alloc: Global, text: &[u8]) -> Result<Vec<u8>, AllocError>
    ensures { IfOk result (λ v. v.items ≡ doubled text.now) }
{
    let mut out = Vec::with_capacity(alloc, text.len())?;
    let mut rest = push_run(&mut out, text)?;
    while let Some((byte, after)) = rest.split_first() {
        push_doubled(&mut out, *byte)?;
        rest = push_run(&mut out, after)?;
    }
    Ok(out)
}
