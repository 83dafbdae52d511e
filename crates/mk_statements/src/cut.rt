//! Lines that are cut at a `#` or a `;`.
ghost use Rattle.std.specs.Prelude.{◌≡◌, ◌+◌, ◌<◌, ◌≤◌, ◌^◌, ◌++◌, IfOk, OnOk, IfSome, true, false, length};
ghost use Rattle.mk_statements.specs.Cut.{size, is_mark, backslashes, step_outside, step, left_over, onto, cut_from, cut, borrowed};

use crate::place::{Place, behind_dollar, in_brackets};
use std::alloc::{AllocError, Global};

/// A line up to where it is cut.
#[derive(Drop)]
pub(crate) struct CutLine<'a> {
    /// What stands there, with what isn't quoted any more.
    pub(crate) front: Vec<u8>,
    /// The mark, and what stands behind it.
    pub(crate) behind: Option<(u8, &'a [u8])>,
}

fn is_mark(has_semicolons: bool, byte: u8) -> bool
    ensures { result ≡ is_mark has_semicolons byte }
{
    byte == b'#' || (has_semicolons && byte == b';')
}

#[tactic(auto, using(crate::proofs::CutLemmas::one_more))]
fn push_backslashes(text: &mut Vec<u8>, count: usize) -> Result<(), AllocError>
    ensures { OnOk result (text.new.items ≡ text.old.items ++ backslashes count) }
{
    let mut left = count;
    while left > 0 {
        text.push(b'\\')?;
        left -= 1;
    }
    Ok(())
}

/// Takes in a byte that stands outside references, behind so many backslashes.
fn take_outside(
    front: &mut Vec<u8>,
    has_semicolons: bool,
    run: usize,
    byte: u8,
) -> Result<Option<Place>, AllocError>
    requires { run + 1 < 2 ^ 64 }
    ensures added { OnOk result (front.new.items ≡ front.old.items ++ (step_outside has_semicolons run byte).0) }
    ensures next { IfOk result (λ next. next ≡ (step_outside has_semicolons run byte).1) }
    ensures small { IfOk result (λ next. IfSome next (λ place. size place ≤ run + 1)) }
{
    if byte == b'\\' {
        return Ok(Some(Place::Outside(run + 1)));
    }
    if !is_mark(has_semicolons, byte) {
        push_backslashes(front, run)?;
        front.push(byte)?;
        return Ok(Some(if byte == b'$' {
            Place::Dollar
        } else {
            Place::Outside(0)
        }));
    }
    push_backslashes(front, run / 2)?;
    if run % 2 == 0 {
        return Ok(None);
    }
    front.push(byte)?;
    Ok(Some(Place::Outside(0)))
}

/// Takes in a byte, and gives the place of the one behind it; none where the line is cut here.
fn take_byte(
    front: &mut Vec<u8>,
    has_semicolons: bool,
    place: Place,
    byte: u8,
) -> Result<Option<Place>, AllocError>
    requires { size place + 1 < 2 ^ 64 }
    ensures added { OnOk result (front.new.items ≡ front.old.items ++ (step has_semicolons place byte).0) }
    ensures next { IfOk result (λ next. next ≡ (step has_semicolons place byte).1) }
    ensures small { IfOk result (λ next. IfSome next (λ further. size further ≤ size place + 1)) }
{
    match place {
        Place::Outside(run) => take_outside(front, has_semicolons, run, byte),
        Place::Dollar => {
            if byte != b'\\' {
                front.push(byte)?;
            }
            Ok(Some(behind_dollar(byte)))
        }
        Place::Within(opening, close, depth) => {
            front.push(byte)?;
            Ok(Some(in_brackets(opening, close, depth, byte)))
        }
    }
}

/// Backslashes that quote nothing.
fn push_left_over(front: &mut Vec<u8>, place: Place) -> Result<(), AllocError>
    ensures { OnOk result (front.new.items ≡ front.old.items ++ left_over place) }
{
    match place {
        Place::Outside(run) => push_backslashes(front, run),
        Place::Dollar | Place::Within(_, _, _) => Ok(()),
    }
}

/// What a line holds before its comment, or, with semicolons, before that and its recipe.
pub(crate) fn cut(
    alloc: Global,
    text: &[u8],
    has_semicolons: bool,
) -> Result<CutLine<'_>, AllocError>
    ensures front { IfOk result (λ found. found.front.items ≡ (cut has_semicolons text.now).front) }
    ensures behind { IfOk result (λ found. borrowed found.behind ≡ (cut has_semicolons text.now).behind) }
{
    let mut front = Vec::new(alloc);
    let mut place = Place::Outside(0);
    let mut rest = text;
    while let Some((byte, behind)) = rest.split_first() {
        match take_byte(&mut front, has_semicolons, place, *byte)? {
            Some(next) => place = next,
            None => {
                let behind = Some((*byte, behind));
                return Ok(CutLine { front, behind });
            }
        }
        rest = behind;
    }
    push_left_over(&mut front, place)?;
    let behind = None;
    Ok(CutLine { front, behind })
}
