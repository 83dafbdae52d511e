//! Conditionals that are open, one in the other, and whether lines count there.
ghost use Rattle.std.specs.Prelude.{◌≡◌, [], ◌∷◌, OnOk, OnErr, is_some};
ghost use Rattle.mk_conditionals.specs.Nest.{active, wants_test, first_branch, turned_from, turned_if, turned_last, ended, missing, Changes};

use crate::branch::{Branch, NestFault, Stage};
use std::alloc::{AllocError, Global};
use std::marker::Model;

/// Conditionals that are open. There may be as many as memory has room for. Contracts see the list of them, the innermost first.
pub struct Nest {
    innermost: Option<Branch>,
    outer: Vec<Branch>,
}

impl Model for Nest {
    ghost use Rattle.std.specs.Prelude.{List};
    ghost use Rattle.mk_conditionals.specs.declared.branch.Branch.{Branch};

    ghost Value = { List Branch };

    ghost use Rattle.mk_conditionals.specs.Nest.{nest_of, IsNest};

    ghost view = { λ s. nest_of s.innermost s.outer.items };

    ghost invariant = { λ s. IsNest s.innermost s.outer.items };
}

impl Drop for Nest {
    fn drop(self) {
        let Nest {
            innermost: _,
            outer: _,
        } = self;
    }
}

impl Nest {
    /// None are open.
    pub fn new(alloc: Global) -> Nest
        ensures { result ≡ [] }
    {
        Nest {
            innermost: None,
            outer: Vec::new(alloc),
        }
    }

    /// Whether lines count, and so whether the test of a conditional that begins here is asked.
    pub fn is_active(&self) -> bool
        ensures { result ≡ active self.now }
    {
        match &self.innermost {
            Some(branch) => branch.stage == Stage::Taken,
            None => true,
        }
    }

    /// Whether the test behind an `else` is asked that comes next.
    pub fn wants_test(&self) -> bool
        ensures { result ≡ wants_test self.now }
    {
        match &self.innermost {
            Some(branch) => branch.stage == Stage::Waiting && !branch.has_else,
            None => false,
        }
    }

    /// A conditional begins in this line. Its test was asked where lines count, and nowhere else.
    pub fn begin(&mut self, line: usize, holds: Option<bool>) -> Result<(), AllocError>
        requires { is_some holds ≡ active self.old }
        ensures ok { OnOk result (self.new ≡ first_branch line holds ∷ self.old) }
        ensures err { OnErr result (self.new ≡ self.old) }
    {
        if let Some(branch) = self.innermost {
            self.outer.push(branch)?;
        }
        self.innermost = Some(Branch::first(line, holds));
        Ok(())
    }

    /// The branch behind which an `else` may come.
    fn turned_from(&self) -> Result<Branch, NestFault>
        ensures { result ≡ turned_from self.now }
    {
        let Some(branch) = self.innermost else {
            return Err(NestFault::ExtraneousElse);
        };
        if branch.has_else {
            return Err(NestFault::SecondElse);
        }
        Ok(branch)
    }

    /// `else` with a test. It was asked where `wants_test` says so, and nowhere else.
    pub fn turn_if(&mut self, holds: Option<bool>) -> Result<(), NestFault>
        requires { is_some holds ≡ wants_test self.old }
        ensures { Changes self.old self.new result (turned_if self.old holds) }
    {
        let branch = self.turned_from()?;
        self.innermost = Some(Branch::first(branch.line, holds));
        Ok(())
    }

    /// `else` alone.
    pub fn turn(&mut self) -> Result<(), NestFault>
        ensures { Changes self.old self.new result (turned_last self.old) }
    {
        let branch = self.turned_from()?;
        self.innermost = Some(branch.last());
        Ok(())
    }

    /// `endif`
    pub fn end(&mut self) -> Result<(), NestFault>
        ensures { Changes self.old self.new result (ended self.old) }
    {
        if self.innermost.is_none() {
            return Err(NestFault::ExtraneousEndif);
        }
        self.innermost = self.outer.pop();
        Ok(())
    }

    /// What is missing at the end of a text: the `endif` of the innermost conditional, by the line that begins it.
    pub fn missing(&self) -> Option<NestFault>
        ensures { result ≡ missing self.now }
    {
        match &self.innermost {
            Some(branch) => Some(NestFault::MissingEndif(branch.line)),
            None => None,
        }
    }
}
