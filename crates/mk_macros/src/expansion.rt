// The expansion of a text. A text whose macro isn't known yet waits in a list until it is, so that no chain of
// definitions and no nesting of brackets is too deep, and each macro's value is made once.
// A value is kept until the expansion ends, also one that a substitution drops: sharing values between names would help only
// where a text is one reference. Brackets are closed by a search for each, so time is the square of their depth; a table of the
// closing bytes, made once from the end of the text, would make it linear.
ghost use Rattle.std.specs.Prelude.{◌≡◌, [], IfOk, IfErr};
ghost use Rattle.mk_macros.specs.Ranks.{defined_by, meaning_of, meanings_of};
ghost use Rattle.mk_macros.specs.Expansion.{gives, Expands, MeetsFault, ExpandsTo, ExpandsToFault};
ghost use Rattle.mk_profile.specs.Profile.{is_wide};

use crate::definitions::Macros;
use crate::dynamic::Dynamic;
use crate::fault::{MacroFault, most_bytes};
use crate::lookup::Progress;
use crate::plain::{expand_plain, has_reference, is_own_value};
use crate::reference::{Piece, named, next_piece};
use crate::substitution::append;
use mk_profile::Profile;
use std::alloc::Global;
use std::collections::HashMap;

/// What is left to read of a text.
#[derive(Drop)]
enum Left<'a> {
    Text(&'a [u8]),
    /// The name that brackets came to, which isn't expanded again, and the text behind them.
    Name(Vec<u8>, &'a [u8]),
}

/// What a text waits for.
#[derive(Drop)]
enum Awaited<'a> {
    /// The value of this macro, whose reference is read again.
    Value(&'a [u8], Left<'a>),
    /// The name in brackets. This text stands behind them.
    Name(&'a [u8]),
}

/// A text that waits.
#[derive(Drop)]
struct Caller<'a> {
    awaited: Awaited<'a>,
    made: Vec<u8>,
}

impl Macros {
    /// The text with its references replaced by what they stand for, in a rule line or in a recipe line. It is read in the
    /// language that these definitions were made for.
    ///
    /// Of several faults the one that a reading from the left meets first is answered.
    pub fn expand<'a>(
        &'a self,
        alloc: Global,
        text: &'a [u8],
        line: &Dynamic<'_>,
    ) -> Result<Vec<u8>, MacroFault>
        ensures found { IfOk result (λ v. ExpandsTo (meanings_of (defined_by self.now) line.now) text.now (gives v.items)) }
        ensures fault { IfErr result (ExpandsToFault (meanings_of (defined_by self.now) line.now) text.now) }
    {
        if !has_reference(text) {
            return expand_plain(alloc, self.profile(), text);
        }
        if let Some(made) = self.expand_simply(alloc, text, line)? {
            return Ok(made);
        }
        self.expand_in(alloc, self.profile(), text, line)
    }

    /// As `expand`, in this language.
    fn expand_in<'a>(
        &'a self,
        alloc: Global,
        profile: Profile,
        text: &'a [u8],
        line: &Dynamic<'_>,
    ) -> Result<Vec<u8>, MacroFault>
        ensures found { IfOk result
            (λ v. Expands (is_wide profile) (meaning_of (defined_by self.now).ranks line.now) [] [] text.now (gives v.items)) }
        ensures fault { IfErr result (MeetsFault (is_wide profile) (meaning_of (defined_by self.now).ranks line.now) text.now) }
    {
        let mut progress: HashMap<&'a [u8], Progress> = HashMap::new(alloc);
        let mut callers: Vec<Caller<'a>> = Vec::new(alloc);
        let mut made = Vec::new(alloc);
        let mut left = Left::Text(text);
        'pieces: loop {
            match left {
                Left::Name(bytes, after) => {
                    let (name, use_of) = named(&bytes);
                    match self.append_reference(
                        alloc, profile, line, &progress, &mut made, name, &use_of,
                    )? {
                        None => left = Left::Text(after),
                        Some((name, text)) => {
                            progress.insert(name, Progress::Opened)?;
                            let awaited = Awaited::Value(name, Left::Name(bytes, after));
                            callers.push(Caller { awaited, made })?;
                            made = Vec::new(alloc);
                            left = Left::Text(text);
                        }
                    }
                }
                Left::Text(rest) => match next_piece(profile, rest) {
                    None => {
                        let Some(
                            Caller {
                                awaited,
                                made: before,
                            },
                        ) = callers.pop()
                        else {
                            return Ok(made);
                        };
                        match awaited {
                            Awaited::Value(name, behind) => {
                                progress.insert(name, Progress::Known(made))?;
                                left = behind;
                            }
                            Awaited::Name(after) => left = Left::Name(made, after),
                        }
                        made = before;
                    }
                    Some((Piece::Plain(bytes), after)) => {
                        append(&mut made, most_bytes(profile), bytes)?;
                        left = Left::Text(after);
                    }
                    Some((Piece::Unclosed, _)) => return Err(MacroFault::Unclosed),
                    Some((Piece::Nested(inner), after)) => {
                        if !profile.is_wide() {
                            return Err(MacroFault::NestedReference);
                        }
                        callers.push(Caller {
                            awaited: Awaited::Name(after),
                            made,
                        })?;
                        made = Vec::new(alloc);
                        left = Left::Text(inner);
                    }
                    Some((Piece::Reference(name, use_of), after)) => {
                        match self.append_reference(
                            alloc, profile, line, &progress, &mut made, name, &use_of,
                        )? {
                            None => left = Left::Text(after),
                            Some((name, text)) => {
                                if is_own_value(profile, text) {
                                    let value = Vec::from_slice(alloc, text)?;
                                    progress.insert(name, Progress::Known(value))?;
                                    left = Left::Text(rest);
                                    continue 'pieces;
                                }
                                progress.insert(name, Progress::Opened)?;
                                callers.push(Caller {
                                    awaited: Awaited::Value(name, Left::Text(rest)),
                                    made,
                                })?;
                                made = Vec::new(alloc);
                                left = Left::Text(text);
                            }
                        }
                    }
                },
            }
        }
    }
}
