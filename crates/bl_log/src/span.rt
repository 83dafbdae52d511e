//! How long a recipe ran.

ghost use Rattle.std.specs.Prelude.{◌≡◌, ◌<◌, ◌≤◌, ◌-◌, IfSome, IfNone};

/// From when to when a recipe ran, in nanoseconds of one clock.
#[derive(Clone, Copy, Debug)]
pub struct Span {
    pub begin: u64,
    pub end: u64,
    ghost forward: { begin ≤ end },
}

impl Span {
    /// None where it ends before it begins.
    pub fn of(begin: u64, end: u64) -> Option<Span>
        ensures some { IfSome result (λ s. (s.begin ≡ begin) × (s.end ≡ end)) }
        ensures none { IfNone result (end < begin) }
    {
        if begin <= end {
            Some(Span { begin, end })
        } else {
            None
        }
    }

    /// How long it is, in nanoseconds.
    pub fn time(self) -> u64
        ensures { result ≡ self.end - self.begin }
    {
        self.end - self.begin
    }
}
