// Texts without a reference, as most are: their expansion is a copy.
ghost use Rattle.std.specs.Prelude.{◌≡◌, ◌==◌, ◌≤◌, ℕ, true, false, List, [], length, IfOk, IfErr};
ghost use Rattle.std.specs.List.{list_any};
ghost use Rattle.mk_macros.specs.Expansion.{Meaning, gives, limit, Expands, MeetsFault};
ghost use Rattle.mk_profile.specs.Profile.{is_wide};

use crate::fault::{MacroFault, most_bytes};
use crate::substitution::append;
use mk_profile::Profile;
use std::alloc::Global;

pub(crate) fn has_reference(text: &[u8]) -> bool
    ensures { result ≡ list_any (λ b. b == 36) text.now }
{
    text.contains(&b'$')
}

/// The expansion of a text without a dollar, in this language.
#[tactic(auto, using(crate::proofs::PlainLemmas::plain_expands, crate::proofs::PlainLemmas::plain_fault))]
pub(crate) fn expand_plain(
    alloc: Global,
    profile: Profile,
    text: &[u8],
) -> Result<Vec<u8>, MacroFault>
    requires { list_any (λ b. b == 36) text.now ≡ false }
    ensures found { IfOk result (λ made. (meaning : List ℕ → Meaning) → Expands (is_wide profile) meaning [] [] text.now (gives made.items)) }
    ensures fault { IfErr result (λ fault. (meaning : List ℕ → Meaning) → MeetsFault (is_wide profile) meaning text.now fault) }
{
    let mut made = Vec::new(alloc);
    append(&mut made, most_bytes(profile), text)?;
    Ok(made)
}

/// Whether a macro's text is its value: it has no reference, and isn't too long.
pub(crate) fn is_own_value(profile: Profile, text: &[u8]) -> bool
    ensures { result ≡ true → (list_any (λ b. b == 36) text.now ≡ false) × (length text.now ≤ limit (is_wide profile)) }
{
    text.len() <= most_bytes(profile) && !has_reference(text)
}
