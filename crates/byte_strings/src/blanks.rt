//! Blanks in slices of bytes, which needn't be UTF-8.
ghost use Rattle.std.specs.Prelude.{◌≡◌, ◌+◌, ◌<◌, ◌≤◌, ◌∷◌, length, take, drop, MatchOption};
ghost use Rattle.std.specs.List.{prefix_len, suffix_len, position_or_len, list_any};
ghost use Rattle.byte_strings.specs.Blanks.{is_blank, trimmed_start, trimmed_end, trimmed, first_word};

pub fn is_blank(byte: u8) -> bool
    ensures { result ≡ is_blank byte }
{
    byte == b' ' || byte == b'\t'
}

fn leading_blanks(bytes: &[u8]) -> usize
    ensures value { result ≡ prefix_len is_blank bytes.now }
    ensures within { result ≤ length bytes.now }
{
    let mut count = 0;
    while count < bytes.len() && is_blank(bytes[count]) {
        count += 1;
    }
    count
}

/// How many bytes are left without the blanks at the end.
fn end_of_text(bytes: &[u8]) -> usize
    ensures { result + suffix_len is_blank bytes.now ≡ length bytes.now }
{
    let mut end = bytes.len();
    while end > 0 && is_blank(bytes[end - 1]) {
        end -= 1;
    }
    end
}

#[tactic(auto, unfolding(crate::specs::Blanks::trimmed_start))]
pub fn trim_start(bytes: &[u8]) -> &[u8]
    ensures { result.now ≡ trimmed_start bytes.now }
{
    bytes.split_at(leading_blanks(bytes)).1
}

#[tactic(auto, unfolding(crate::specs::Blanks::trimmed_end))]
pub fn trim_end(bytes: &[u8]) -> &[u8]
    ensures { result.now ≡ trimmed_end bytes.now }
{
    bytes.split_at(end_of_text(bytes)).0
}

#[tactic(auto, unfolding(crate::specs::Blanks::trimmed))]
pub fn trim(bytes: &[u8]) -> &[u8]
    ensures { result.now ≡ trimmed bytes.now }
{
    trim_end(trim_start(bytes))
}

/// How many bytes stand before the first blank.
pub fn word_len(bytes: &[u8]) -> usize
    ensures value { result ≡ position_or_len is_blank bytes.now }
    ensures within { result ≤ length bytes.now }
{
    let mut count = 0;
    while count < bytes.len() && !is_blank(bytes[count]) {
        count += 1;
    }
    count
}

#[tactic(auto, unfolding(crate::specs::Blanks::first_word))]
pub fn first_word(bytes: &[u8]) -> &[u8]
    ensures { result.now ≡ first_word bytes.now }
{
    bytes.split_at(word_len(bytes)).0
}
