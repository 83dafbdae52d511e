ghost use Rattle.std.specs.Prelude.{◌≡◌};
ghost use Rattle.mk_profile.specs.Profile.{is_wide};

/// The language that makefiles are written in.
#[derive(Clone, Copy, Debug, PartialEq, Eq)]
pub enum Profile {
    /// Forms whose meaning all makes agree on, with nothing built in. What else there is is refused by name.
    Strict,
    /// POSIX make, and where it leaves a thing open what other makes agree on.
    Posix,
}

impl Profile {
    /// Whether the wider forms are taken.
    pub fn is_wide(self) -> bool
        ensures { result ≡ is_wide self }
    {
        match self {
            Profile::Strict => false,
            Profile::Posix => true,
        }
    }
}
