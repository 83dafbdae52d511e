//! A disk of two sides in memory. It knows what a power cut may have left at each moment.
#![tactic(auto)]

mod call;
mod mem_disk;
mod mem_side;
mod power_cut;
mod replay;

pub use mem_disk::MemDisk;
