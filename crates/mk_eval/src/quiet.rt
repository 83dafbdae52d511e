//! Rules that give themselves in each profile, as most do: each of their texts is looked at once.
ghost use Rattle.std.specs.Prelude.{◌≡◌, true};
ghost use Rattle.mk_reader.specs.declared.item.Item.TheVariants as item;
ghost use Rattle.mk_eval.specs.Quiet.{is_sign, has_sign_behind, GivesItself};

use mk_lines::begins_with;
use mk_reader::{Item, Rule};

/// Whether the byte may say more than a part of a name.
fn is_sign(byte: u8) -> bool
    ensures { result ≡ is_sign byte }
{
    (byte == b'*')
        | (byte == b':')
        | ((byte == b'=') | (byte == b'?'))
        | ((byte == b'[') | (byte == b'\\'))
        | (byte == b'$')
}

/// Whether such a byte stands in the text, or a `./`.
fn has_sign(text: &[u8]) -> bool
    ensures { result ≡ has_sign_behind 0 text.now }
{
    let Some((first, _)) = text.split_first() else {
        return false;
    };
    // No byte ends the loop, and none waits for the one before it, so that many can be looked at at once.
    let mut has_one = is_sign(*first);
    let mut at = 1;
    while at < text.len() {
        has_one |= is_sign(text[at]) | ((text[at - 1] == b'.') & (text[at] == b'/'));
        at += 1;
    }
    has_one
}

/// Whether the rule gives itself, as it is seen by its bytes.
#[tactic(auto, using(crate::proofs::QuietLemmas::rule_itself))]
fn is_quiet(rule: &Rule) -> bool
    ensures { result ≡ true → GivesItself (item.Rule rule.now) }
{
    let targets = rule.targets.as_slice();
    !begins_with(targets, b'.') && !has_sign(targets) && !has_sign(rule.prerequisites.as_slice())
}

/// Whether the item gives itself, as it is seen by its bytes.
pub fn gives_itself(item: &Item) -> bool
    ensures { result ≡ true → GivesItself item.now }
{
    match item {
        Item::Rule(rule) => is_quiet(rule),
        Item::Definition(_) | Item::Special(_) => false,
    }
}
