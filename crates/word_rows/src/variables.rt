//! What rows say of variables.
use mk_functions::{Flavor, Origin};

/// What `=` or `:=` says of a variable.
pub(crate) fn flavor_of(sign: &str) -> Option<Flavor> {
    match sign {
        "=" => Some(Flavor::Recursive),
        ":=" => Some(Flavor::Simple),
        _ => None,
    }
}

/// An origin, by the word that a row has for it.
pub(crate) fn origin_of(word: &str) -> Option<Origin> {
    match word {
        "default" => Some(Origin::Default),
        "environment" => Some(Origin::Environment),
        "environment-override" => Some(Origin::EnvironmentOverride),
        "file" => Some(Origin::File),
        "command-line" => Some(Origin::CommandLine),
        "override" => Some(Origin::Override),
        "automatic" => Some(Origin::Automatic),
        _ => None,
    }
}
