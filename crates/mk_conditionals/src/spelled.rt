//! What a line says of conditionals, read from its front.
ghost use Rattle.std.specs.Prelude.{◌≡◌, None, Some, MatchOption};
ghost use Rattle.mk_conditionals.specs.Cut.{front_word, behind_word};
ghost use Rattle.mk_conditionals.specs.Spelled.{condition_of, said_by, arguments, compared, asked_for, tested, tested_name, turned, is_sign_next, said};

use crate::arguments::arguments;
use crate::cut::part_word;
use crate::directive::{Directive, DirectiveLine, Question, Test};
use byte_strings::{first_word, trim_start};

fn compared(is_negated: bool, rest: &[u8]) -> (Test<'_>, bool)
    ensures { (condition_of result.0, result.1) ≡ compared is_negated (arguments rest.now) }
{
    match arguments(rest) {
        Some((first, second, behind)) => {
            let question = Question::Equal(first, second);
            let has_text_behind = !trim_start(behind).is_empty();
            (
                Test {
                    is_negated,
                    question,
                },
                has_text_behind,
            )
        }
        None => (
            Test {
                is_negated,
                question: Question::Invalid,
            },
            false,
        ),
    }
}

fn asked_for(is_negated: bool, rest: &[u8]) -> (Test<'_>, bool)
    ensures { (condition_of result.0, result.1) ≡ asked_for is_negated rest.now }
{
    let question = Question::Defined(rest);
    (
        Test {
            is_negated,
            question,
        },
        false,
    )
}

/// The test that a word begins, and whether text stands behind it.
#[tactic(auto, unfolding(crate::specs::Spelled::tested))]
fn tested<'a>(word: &[u8], rest: &'a [u8]) -> Option<(Test<'a>, bool)>
    ensures { MatchOption result (tested word.now rest.now ≡ None)
        (λ found. tested word.now rest.now ≡ Some (condition_of found.0, found.1)) }
{
    if word == b"ifeq".as_slice() {
        return Some(compared(false, rest));
    }
    if word == b"ifneq".as_slice() {
        return Some(compared(true, rest));
    }
    if word == b"ifdef".as_slice() {
        return Some(asked_for(false, rest));
    }
    if word == b"ifndef".as_slice() {
        return Some(asked_for(true, rest));
    }
    None
}

/// What an `else` says with this behind it.
fn turned(rest: &[u8]) -> DirectiveLine<'_>
    ensures { said_by result ≡ turned rest.now (tested (front_word rest.now) (behind_word rest.now)) }
{
    let (word, behind) = part_word(rest);
    match tested(word, behind) {
        Some((test, has_text_behind)) => DirectiveLine {
            directive: Directive::Turns(Some(test)),
            has_text_behind,
        },
        None => DirectiveLine {
            directive: Directive::Turns(None),
            has_text_behind: !rest.is_empty(),
        },
    }
}

/// The name that an expanded text of `ifdef` is: what stands before its first blank, which may be nothing. There is none where
/// more stands behind.
#[tactic(auto, unfolding(crate::specs::Spelled::tested_name))]
pub fn tested_name(expanded: &[u8]) -> Option<&[u8]>
    ensures { MatchOption result (tested_name expanded.now ≡ None) (λ name. tested_name expanded.now ≡ Some name.now) }
{
    let name = first_word(expanded);
    let rest = expanded.get(name.len()..).unwrap_or(b"".as_slice());
    if trim_start(rest).is_empty() {
        Some(name)
    } else {
        None
    }
}

/// Whether the sign of a definition comes next.
#[tactic(auto, unfolding(crate::specs::Spelled::is_sign_next))]
fn is_sign_next(rest: &[u8]) -> bool
    ensures { result ≡ is_sign_next rest.now }
{
    rest.starts_with(b"=")
        || rest.starts_with(b":=")
        || rest.starts_with(b"::=")
        || rest.starts_with(b":::=")
        || rest.starts_with(b"+=")
        || rest.starts_with(b"?=")
        || rest.starts_with(b"!=")
}

/// What a logical line says of conditionals, if it says anything. Its comment is taken off, and its lines are joined; blanks
/// may stand in front. A keyword that is defined, as in `else = x`, says nothing.
#[tactic(auto, unfolding(crate::specs::Spelled::said))]
pub fn directive_of(text: &[u8]) -> Option<DirectiveLine<'_>>
    ensures { MatchOption result (said text.now ≡ None) (λ line. said text.now ≡ Some (said_by line)) }
{
    let (word, rest) = part_word(text);
    if is_sign_next(rest) {
        return None;
    }
    if word == b"endif".as_slice() {
        return Some(DirectiveLine {
            directive: Directive::Ends,
            has_text_behind: !rest.is_empty(),
        });
    }
    if word == b"else".as_slice() {
        return Some(turned(rest));
    }
    let (test, has_text_behind) = tested(word, rest)?;
    Some(DirectiveLine {
        directive: Directive::Begins(test),
        has_text_behind,
    })
}
