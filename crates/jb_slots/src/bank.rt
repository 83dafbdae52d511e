//! One worker's end of a pool of tokens.
ghost use Rattle.std.specs.Prelude.{◌≡◌, Ok};
ghost use Rattle.jb_slots.specs.Tokens.{EndState, ReadsNoMore, after_take, after_give};
ghost use Rattle.jb_slots.specs.declared.bank.Taken.TheVariants as taken;

use crate::BankFault;

/// What a look into a pool finds.
#[derive(Clone, Copy, Debug, PartialEq, Eq)]
pub enum Taken {
    /// A byte, which lies in the pool no more.
    Token(u8),
    /// No byte lies there, and one may come.
    NothingNow,
    /// None lies there, and none will come.
    End,
}

/// One worker's end of a pool of tokens. Contracts see the bytes that it has read and those that it has given back.
///
/// Each worker has an end of its own. The pool behind it is shared, also with other processes, so nothing is said of
/// what the pool holds.
pub trait Bank {
    /// What the end notes of its calls.
    ghost state: { Self → EndState };

    /// Looks for a byte, and waits for nobody. After the end of the pool, after a fault, and where no room is left to note
    /// a byte, it reads nothing and answers the end.
    fn take(&mut self) -> Result<Taken, BankFault>
        ensures noted { state self.new ≡ after_take (state self.old) result }
        ensures no_more { ReadsNoMore (state self.old) → result ≡ Ok taken.End };

    /// Gives a byte back. At a fault it counts as not given back, and the end reads no more.
    fn give(&mut self, token: u8) -> Result<(), BankFault>
        ensures noted { state self.new ≡ after_give (state self.old) token result };

    /// Whether a call of this end has answered a fault.
    fn faulted(&self) -> bool
        ensures { result ≡ (state self.now).faulted };
}
