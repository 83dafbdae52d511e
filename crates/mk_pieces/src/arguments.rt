//! The arguments of a call.
ghost use Rattle.std.specs.Prelude.{◌≡◌, ◌<◌, ◌-◌, ◌∷◌, length, IfSome, if◌then◌else◌, None, ◌==◌};
ghost use Rattle.std.specs.Iterator.{YieldsFirstRef, item_count};
ghost use Rattle.mk_pieces.specs.Brackets.{place_outside, arguments_of, arguments_left};
ghost use Rattle.std.specs.Option.{option_copied};

use crate::brackets::Brackets;
use std::marker::Model;

/// The arguments of a call that are left, in their order. Contracts see them as the list of these.
#[derive(Drop)]
pub struct Arguments<'a> {
    brackets: Brackets,
    most: usize,
    text: Option<&'a [u8]>,
}

impl<'a> Model for Arguments<'a> {
    ghost use Rattle.std.specs.Prelude.{ℕ, List};

    ghost Value = { List (List ℕ) };

    ghost use Rattle.std.specs.Option.{option_copied};
    ghost use Rattle.mk_pieces.specs.Brackets.{arguments_left};

    ghost view = { λ s. arguments_left s.brackets.opening s.brackets.close s.most (option_copied s.text) };
}

impl<'a> Arguments<'a> {
    /// Those of a text, so many at most; 0 stands for any number.
    pub(crate) fn new(brackets: Brackets, most: usize, text: &'a [u8]) -> Arguments<'a>
        ensures { result ≡ arguments_of brackets.opening brackets.close most text.now }
    {
        Arguments {
            brackets,
            most,
            text: Some(text),
        }
    }
}

/// The comma behind the first of so many arguments at most.
fn first_comma(brackets: Brackets, most: usize, text: &[u8]) -> Option<usize>
    ensures value { result ≡ (if most == 1 then None else place_outside 44 brackets.opening brackets.close text.now) }
    ensures within { IfSome result (λ place. place < length text.now) }
{
    if most == 1 {
        None
    } else {
        brackets.place_outside(text, b',')
    }
}

/// The first of so many arguments at most, and what stands behind its comma.
fn first_argument(brackets: Brackets, most: usize, text: &[u8]) -> (&[u8], Option<&[u8]>)
    ensures { arguments_of brackets.opening brackets.close most text.now ≡ result.0.now ∷ arguments_left brackets.opening brackets.close (most - 1) (option_copied result.1) }
{
    match first_comma(brackets, most, text) {
        None => (text, None),
        Some(end) => (&text[..end], Some(&text[end + 1..])),
    }
}

impl<'a> Iterator for Arguments<'a> {
    type Item = &'a [u8];

    ghost next_gives = { YieldsFirstRef (λ s. s) };

    ghost remaining = { item_count (λ s. s) };

    fn next(&mut self) -> Option<&'a [u8]> {
        let text = self.text?;
        let (first, rest) = first_argument(self.brackets, self.most, text);
        self.text = rest;
        self.most = self.most.saturating_sub(1);
        Some(first)
    }
}
