//! What MAKEFLAGS says of a jobserver.
ghost use Rattle.std.specs.Prelude.{◌≡◌, ◌≢◌, ℕ, List, Bool, ◌↔◌, ◌++◌, ◌∷◌, All, Contains, IsTrue, MatchOption, codes};
ghost use Rattle.jb_auth.specs.Auth.{Authority, Says, Begins, SaysValue, AreWords, NamesNone, IsLastNamed, IsNumber, AsksForDryRun, AsksForPosix, AreFlags, AreNumbers, AreDigits, seen};

const AUTH: &[u8] = b"--jobserver-auth=";

const FIFO: &[u8] = b"fifo:";

const POSIX: &[u8] = b"--posix";

const BEFORE_DEFINITIONS: &[u8] = b"--";

/// What MAKEFLAGS says of a jobserver.
#[derive(Clone, Copy, Debug, PartialEq, Eq)]
pub enum Auth<'a> {
    /// No word names one.
    Absent,
    /// There is one, but not for this make.
    Disabled,
    /// It is the FIFO of this path.
    Fifo(&'a [u8]),
    /// It is two open descriptors.
    Descriptors,
    /// A word names one in a form that isn't known.
    Unreadable,
}

/// What MAKEFLAGS says of a jobserver, whatever bytes it holds: the last word that begins with `--jobserver-auth=`
/// counts. Takes no memory.
pub fn read_auth(makeflags: &[u8]) -> Auth<'_>
    ensures says { Says makeflags.now (seen result) }
    ensures only { (authority : Authority) → Says makeflags.now authority → authority ≡ seen result }
{
    match last_value(makeflags) {
        None => Auth::Absent,
        Some(value) => auth_of(value),
    }
}

/// Whether the first word of MAKEFLAGS asks for a dry run. Takes no memory.
pub fn dry(makeflags: &[u8]) -> bool
    ensures { IsTrue result ↔ AsksForDryRun makeflags.now }
{
    let (first, _) = cut_at(makeflags, b' ');
    are_flags(first) && holds(first, b'n')
}

/// Whether a word of MAKEFLAGS asks for the wide language. Takes no memory.
pub fn posix(makeflags: &[u8]) -> bool
    ensures { IsTrue result ↔ AsksForPosix makeflags.now }
{
    let mut rest = Some(makeflags);
    while let Some(text) = rest {
        let (word, behind) = cut_at(text, b' ');
        if word == POSIX {
            return true;
        }
        if word == BEFORE_DEFINITIONS {
            return false;
        }
        rest = behind;
    }
    false
}

// Whether a word is neither a long option nor a definition.
fn are_flags(word: &[u8]) -> bool
    ensures { IsTrue result ↔ AreFlags word.now }
{
    !is_long_option(word) && !holds(word, b'=')
}

fn holds(word: &[u8], byte: u8) -> bool
    ensures { IsTrue result ↔ Contains word.now byte }
{
    word.contains(&byte)
}

fn is_long_option(word: &[u8]) -> bool
    ensures yes { IsTrue result → (rest : List ℕ) × Begins (codes "--") word.now rest }
    ensures only { (rest : List ℕ) → Begins (codes "--") word.now rest → IsTrue result }
{
    word.starts_with(b"--")
}

// What stands before the first place of a byte, and what stands behind it.
fn cut_at(text: &[u8], byte: u8) -> (&[u8], Option<&[u8]>)
    ensures front { All (λ b. b ≢ byte) result.0.now }
    ensures rest { MatchOption result.1
        (text.now ≡ result.0.now)
        (λ rest. text.now ≡ result.0.now ++ byte ∷ rest.now) }
{
    match text.iter().position(|b| *b == byte) {
        None => (text, None),
        Some(place) => (&text[..place], Some(&text[place + 1..])),
    }
}

// The value of the last word that names a jobserver.
fn last_value(makeflags: &[u8]) -> Option<&[u8]>
    ensures { (words : List (List ℕ)) × AreWords makeflags.now words
        × MatchOption result (NamesNone words) (λ value. IsLastNamed words value.now) }
{
    let mut last = None;
    let mut rest = Some(makeflags);
    while let Some(text) = rest {
        let (word, behind) = cut_at(text, b' ');
        if let Some(value) = word.strip_prefix(AUTH) {
            last = Some(value);
        }
        rest = behind;
    }
    last
}

fn auth_of(value: &[u8]) -> Auth<'_>
    ensures { SaysValue value.now (seen result) }
{
    if let Some(path) = value.strip_prefix(FIFO) {
        return if path.is_empty() {
            Auth::Unreadable
        } else {
            Auth::Fifo(path)
        };
    }
    match negatives(value) {
        None => Auth::Unreadable,
        Some((false, false)) => Auth::Descriptors,
        Some(_) => Auth::Disabled,
    }
}

// Whether the two numbers of a value are negative, where it is two numbers.
fn negatives(value: &[u8]) -> Option<(bool, bool)>
    ensures { MatchOption result
        ((first second : Bool) → AreNumbers first second value.now → ⊥)
        (λ signs. AreNumbers signs.0 signs.1 value.now) }
{
    let (front, back) = cut_at(value, b',');
    let first = negative(front)?;
    let second = negative(back?)?;
    Some((first, second))
}

// Whether a number is negative, where the text is one.
fn negative(text: &[u8]) -> Option<bool>
    ensures { MatchOption result ((sign : Bool) → IsNumber sign text.now → ⊥) (λ sign. IsNumber sign text.now) }
{
    match text.split_first() {
        Some((b'-', digits)) if are_digits(digits) => Some(true),
        _ if are_digits(text) => Some(false),
        _ => None,
    }
}

fn are_digits(text: &[u8]) -> bool
    ensures { IsTrue result ↔ AreDigits text.now }
{
    !text.is_empty() && text.iter().all(|b| b.is_ascii_digit())
}
