//! How what recipes write is held together.
ghost use Rattle.std.specs.Prelude.{◌≡◌, ◌≤◌, ◌↔◌, false, None, Some, IfSome, IsTrue};
ghost use Rattle.mk_profile.specs.Profile.{is_wide};
ghost use Rattle.dmk_words.specs.Output.{asked_by, word_of};
ghost use Rattle.dmk_words.specs.declared.output.Output.TheVariants.{Unheld, AtFront};

use crate::request::Later;
use dmk_reading::Options;

/// How what recipes write is held together: as GNU make tells it apart, or so that one recipe at a time isn't held. What is held is here
/// held until its recipe ends.
#[derive(Clone, Copy, PartialEq, Eq)]
pub enum Output {
    /// It isn't held.
    Unheld,
    /// That of the oldest recipe that runs isn't held, as far as its lines are whole.
    AtFront,
    ByLine,
    ByTarget,
    ByMake,
}

impl Output {
    /// What a word asks for, one of dmk's own or of GNU make's.
    pub fn of(word: &str) -> Option<Output>
        ensures { result ≡ asked_by word.now }
    {
        match word {
            "through" | "none" => Some(Output::Unheld),
            "front" => Some(Output::AtFront),
            "line" => Some(Output::ByLine),
            "block" | "target" => Some(Output::ByTarget),
            "recurse" => Some(Output::ByMake),
            _ => None,
        }
    }

    /// GNU make's word for it, by which a make below holds it alike. It has none for the one recipe that isn't held.
    pub fn word(self) -> Option<&'static str>
        ensures text { IfSome result (λ word. word_of self ≡ Some word.now) }
        ensures none { result ≡ None ↔ (word_of self ≡ None) }
        ensures same { IfSome result (λ word. asked_by word.now ≡ Some self) }
    {
        match self {
            Output::Unheld => Some("none"),
            Output::AtFront => None,
            Output::ByLine => Some("line"),
            Output::ByTarget => Some("target"),
            Output::ByMake => Some("recurse"),
        }
    }
}

impl Later {
    /// Whether recipes write on dmk's own streams: as is asked for, else where they run one by one in the wide profile.
    pub fn writes_through(self, options: &Options) -> bool
        ensures asked { IfSome self.output (λ output. IsTrue result ↔ (output ≡ Unheld)) }
        ensures strict { self.output ≡ None → is_wide options.now.profile ≡ false → result ≡ false }
        ensures wide { self.output ≡ None → IsTrue (is_wide options.now.profile) → (IsTrue result ↔ (options.now.workers ≡ 1)) }
    {
        match self.output {
            Some(output) => output == Output::Unheld,
            None => options.profile.is_wide() && options.workers == 1,
        }
    }
    /// Whether what the oldest recipe that runs writes is printed as it comes: as is asked for, else where several run at once in the wide
    /// profile.
    pub fn writes_at_front(self, options: &Options) -> bool
        ensures asked { IfSome self.output (λ output. IsTrue result ↔ (output ≡ AtFront)) }
        ensures strict { self.output ≡ None → is_wide options.now.profile ≡ false → result ≡ false }
        ensures wide { self.output ≡ None → IsTrue (is_wide options.now.profile) → (result ≡ false ↔ (options.now.workers ≡ 1)) }
    {
        match self.output {
            Some(output) => output == Output::AtFront,
            None => options.profile.is_wide() && options.workers != 1,
        }
    }
}
