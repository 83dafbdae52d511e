//! What is known of a variable beside its text.

/// Whether a variable's text is expanded where the variable is referred to.
#[derive(Clone, Copy)]
pub enum Flavor {
    Recursive,
    Simple,
}

/// Where a variable comes from.
#[derive(Clone, Copy)]
pub enum Origin {
    Default,
    Environment,
    EnvironmentOverride,
    File,
    CommandLine,
    Override,
    Automatic,
}

/// What a name stands for.
#[derive(Clone, Copy)]
pub struct Variable<'a> {
    pub text: &'a [u8],
    pub flavor: Flavor,
    pub origin: Origin,
}
