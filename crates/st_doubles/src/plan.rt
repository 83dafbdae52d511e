//! Plans of which calls of a disk fail.
ghost use Rattle.std.specs.Prelude.{◌≡◌, ◌-◌, Bool, ◌==◌, ◌&&◌, ◌||◌, not};

/// Which calls fail, as far as it isn't over yet.
pub trait Plan {
    /// The next call fails.
    ghost fails: { Self → Bool };

    /// The plan for the calls after that one.
    ghost rest: { Self → Self };

    /// Goes on by one call, and says whether it fails.
    fn next_fails(&mut self) -> bool
        ensures fails { result ≡ fails self.old }
        ensures rest { self.new ≡ rest self.old };
}

/// So many calls pass, each later one fails.
#[derive(Clone, Copy, Debug, PartialEq, Eq)]
pub struct Stops {
    pub calls_left: u64,
}

impl Plan for Stops {
    ghost fails = { λ plan. plan.calls_left == 0 };

    ghost rest = { λ plan. record { calls_left = plan.calls_left - 1 } };

    fn next_fails(&mut self) -> bool {
        let fails = self.calls_left == 0;
        self.calls_left = self.calls_left.saturating_sub(1);
        fails
    }
}

/// So many calls pass, the next one fails, all later ones pass.
#[derive(Clone, Copy, Debug, PartialEq, Eq)]
pub struct FailsOne {
    pub calls_left: u64,
    pub failed: bool,
}

impl Plan for FailsOne {
    ghost fails = { λ plan. plan.calls_left == 0 && not plan.failed };

    ghost rest = { λ plan. record {
      calls_left = plan.calls_left - 1;
      failed = plan.failed || plan.calls_left == 0;
    } };

    fn next_fails(&mut self) -> bool {
        let fails = self.calls_left == 0 && !self.failed;
        self.failed = self.failed || self.calls_left == 0;
        self.calls_left = self.calls_left.saturating_sub(1);
        fails
    }
}
