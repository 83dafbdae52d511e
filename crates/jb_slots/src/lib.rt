// Job slots: dmk as a client of a jobserver, and as its server.
#![tactic(auto)]

mod bank;
mod banks;
mod end;
mod fault;
mod fifo_bank;
mod implicit;
mod laws;
mod memory_bank;
mod slots;

pub use bank::{Bank, Taken};
pub use banks::Banks;
pub use end::{End, Pipe};
pub use fault::BankFault;
pub use fifo_bank::{Fifo, FifoBank, FifoBanks};
pub use jb_auth::{Auth, dry, read_auth};
pub use laws::returns_tokens;
pub use memory_bank::{MemoryBank, MemoryPipe, MemoryPool};
pub use slots::{Slot, Slots};
