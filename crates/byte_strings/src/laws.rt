//! What holds of the definitions alone.
ghost use Rattle.std.specs.Prelude.{◌≡◌, ℕ, List};
ghost use Rattle.std.specs.List.{join_with_byte};
ghost use Rattle.byte_strings.specs.Blanks.{words, AreWords};

/// Words joined by one space are the words of the text.
pub fn words_of_joined_words()
    ensures { (ws : List (List ℕ)) → AreWords ws → words (join_with_byte 32 ws) ≡ ws }
{}
