// What holds of the definitions alone. Nothing here runs: each body is empty.
ghost use Rattle.std.specs.Prelude.{◌≡◌, ℕ, ◌∷◌, [], ◌++◌, Option, Some, None, false};
ghost use Rattle.jb_slots.specs.Tokens.{EndState, ReturnsTokens};
ghost use Rattle.jb_slots.specs.Slots.{HasUsed};

/// Whatever one worker makes of its end, with whatever faults, by taking a slot while it holds none and giving back
/// the one that it holds: what it gave back is what it read, or all but the last byte. While it holds a slot for a byte,
/// that byte lacks; while it holds none, nothing lacks unless a call answered a fault.
pub fn returns_tokens()
    ensures always { (start now : EndState) (held : Option (Option ℕ)) → start.given ≡ start.read
        → HasUsed start now held → ReturnsTokens now.read now.given }
    ensures held { (start now : EndState) (token : ℕ) → start.given ≡ start.read
        → HasUsed start now (Some (Some token)) → now.read ≡ now.given ++ token ∷ [] }
    ensures none_held { (start now : EndState) → start.given ≡ start.read
        → HasUsed start now None → now.faulted ≡ false → now.given ≡ now.read }
{}
