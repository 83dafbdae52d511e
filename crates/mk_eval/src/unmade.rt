//! Included files that aren't there and have a rule: such a file isn't made, and its fault says so.
ghost use Rattle.std.specs.Prelude.{◌≡◌, ◌<◌, List, length, is_some, option_and_then, IfSome};
ghost use Rattle.std.specs.List.{list_any};
ghost use Rattle.byte_strings.specs.Blanks.{words};
ghost use Rattle.mk_macros.specs.Words.{place_of, without_front, without_end};
ghost use Rattle.mk_profile.specs.Profile.{is_wide};
ghost use Rattle.mk_reader.specs.Form.{Refuses};
ghost use Rattle.mk_reader.specs.Statements.{AreStatements};
ghost use Rattle.mk_reader.specs.declared.fault.Refusal.{Refusal};
ghost use Rattle.mk_reader.specs.declared.fault.ReadFault.TheVariants as read_fault;
ghost use Rattle.mk_reader.specs.declared.item.Statement.{Statement};
ghost use Rattle.mk_eval.specs.Unmade.{is_spelled, is_rule_of, says_rule_of, cause_beside, told_beside};

use byte_strings::next_word;
use mk_profile::Profile;
use mk_reader::{Cause, Item, ReadFault, Refusal, Statement, statements_of};
use std::alloc::Global;

/// The place of the first `%`.
fn percent(word: &[u8]) -> Option<usize>
    ensures place { result ≡ place_of 37 word.now }
    ensures within { IfSome result (λ place. place < length word.now) }
{
    word.iter().position(|byte| *byte == b'%')
}

/// Whether a name is what stands around the word's `%`, with something between.
fn fits_around(name: &[u8], before: &[u8], after: &[u8]) -> bool
    ensures { result ≡ is_some (option_and_then (without_end after.now) (without_front before.now name.now)) }
{
    match name.strip_prefix(before) {
        Some(rest) => rest.strip_suffix(after).is_some(),
        None => false,
    }
}

/// Whether a target that is spelled so has the name.
fn is_spelled(name: &[u8], word: &[u8]) -> bool
    ensures { result ≡ is_spelled name.now word.now }
{
    match percent(word) {
        Some(place) => fits_around(name, &word[..place], &word[place + 1..]),
        None => word == name,
    }
}

fn any_is_spelled(name: &[u8], targets: &[u8]) -> bool
    ensures { result ≡ list_any (is_spelled name.now) (words targets.now) }
{
    let mut rest = targets;
    while let Some((word, after)) = next_word(rest) {
        if is_spelled(name, word) {
            return true;
        }
        rest = after;
    }
    false
}

fn is_rule_of(name: &[u8], item: &Item) -> bool
    ensures { result ≡ is_rule_of name.now item.now }
{
    match item {
        Item::Rule(rule) => any_is_spelled(name, rule.targets.as_slice()),
        _ => false,
    }
}

fn says_rule_of(name: &[u8], statement: &Statement) -> bool
    ensures { result ≡ says_rule_of name.now statement.now }
{
    match statement {
        Statement::Item(item) => is_rule_of(name, item),
        _ => false,
    }
}

fn any_says_rule_of(name: &[u8], statements: &[Statement]) -> bool
    ensures { result ≡ list_any (says_rule_of name.now) statements.now }
{
    statements.iter().any(|one| says_rule_of(name, one))
}

/// The cause, told beside these statements.
fn cause_beside(profile: Profile, statements: &[Statement], cause: Cause) -> Cause
    ensures { result ≡ cause_beside (is_wide profile) statements.now cause }
{
    if !profile.is_wide() {
        return cause;
    }
    match cause {
        Cause::IncludeMissing(name) => {
            if any_says_rule_of(name.as_slice(), statements) {
                Cause::IncludeUnmade(name)
            } else {
                Cause::IncludeMissing(name)
            }
        }
        other => other,
    }
}

/// The refusal, told beside these statements.
fn told_beside(profile: Profile, statements: &[Statement], refused: Refusal) -> Refusal
    ensures { result ≡ told_beside (is_wide profile) statements.now refused }
{
    let Refusal { file, line, cause } = refused;
    Refusal {
        file,
        line,
        cause: cause_beside(profile, statements, cause),
    }
}

/// The fault of what a text includes, told beside the statements of that text.
pub fn told_in(
    alloc: Global,
    profile: Profile,
    file: &[u8],
    text: &[u8],
    fault: ReadFault,
) -> ReadFault
    ensures refused { (refused : Refusal) → fault ≡ read_fault.Refused refused
        → (statements : List Statement) → AreStatements profile file.now text.now statements
        → Refuses result (told_beside (is_wide profile) statements refused) }
    ensures memory { fault ≡ read_fault.OutOfMemory → result ≡ read_fault.OutOfMemory }
{
    let ReadFault::Refused(refused) = fault else {
        return ReadFault::OutOfMemory;
    };
    if !profile.is_wide() {
        return ReadFault::Refused(refused);
    }
    match statements_of(alloc, profile, file, text) {
        Ok(statements) => ReadFault::Refused(told_beside(profile, statements.as_slice(), refused)),
        Err(_) => ReadFault::OutOfMemory,
    }
}
