//! Numbers that may be missing, in little memory.
ghost use Rattle.std.specs.Prelude.{◌≡◌, IfOk};

use std::alloc::AllocError;
use std::marker::Model;

/// What is kept where there is no number.
const NO_NUMBER: u32 = 4_294_967_295;

/// A number or none, in four bytes.
#[derive(Drop)]
pub struct ShortNumber {
    kept: u32,
}

impl Model for ShortNumber {
    ghost use Rattle.std.specs.Prelude.{ℕ, Option};
    ghost use Rattle.mk_nodes.specs.ShortNumber.{number_kept};

    ghost Value = { Option ℕ };

    ghost view = { λ n. number_kept n.kept };
}

impl ShortNumber {
    /// This number. There is no memory for one of 2^32 - 1 or more.
    pub fn of(number: Option<usize>) -> Result<ShortNumber, AllocError>
        ensures { IfOk result (λ short. short ≡ number) }
    {
        let Some(number) = number else {
            return Ok(ShortNumber { kept: NO_NUMBER });
        };
        if number >= NO_NUMBER as usize {
            return Err(AllocError);
        }
        Ok(ShortNumber {
            kept: number as u32,
        })
    }

    pub fn get(&self) -> Option<usize>
        ensures { result ≡ self.now }
    {
        if self.kept == NO_NUMBER {
            return None;
        }
        Some(self.kept as usize)
    }
}
