//! What the calls of a row are made of: two sides, and the store that is open over them.
use crate::held::{Device, Held, MANY, device_of};
use crate::store_calls::call_store;
use disk_rows::{call_disk, call_folder};
use row_files::bytes::read;
use row_files::{Calls, Report, RowFault, Setup, Words, World};
use st_memory::MemDisk;
use std::alloc::{AllocError, Global};

#[derive(Drop)]
pub(crate) struct Sides {
    pub(crate) a: Vec<u8>,
    pub(crate) b: Vec<u8>,
    /// How many calls of the disk pass before it stops.
    pub(crate) stop: u64,
    /// How many pass before one fails.
    pub(crate) fail: u64,
    pub(crate) held: Held<Device>,
}

impl Sides {
    /// Takes what a side holds. Whether it is a side.
    fn take_side(
        &mut self,
        alloc: Global,
        name: &str,
        words: &mut Words<'_>,
    ) -> Result<bool, RowFault> {
        match name {
            "A" => self.a = read(alloc, words.next())?,
            "B" => self.b = read(alloc, words.next())?,
            _ => return Ok(false),
        }
        Ok(true)
    }

    /// Takes how many calls of the disk pass. Whether it is that.
    fn take_limit(&mut self, name: &str, words: &mut Words<'_>) -> Result<bool, RowFault> {
        match name {
            "stop" => self.stop = words.number()? as u64,
            "fail" => self.fail = words.number()? as u64,
            _ => return Ok(false),
        }
        Ok(true)
    }

    /// A disk of the sides that stops after so many calls, and fails one behind so many.
    pub(crate) fn device_at(
        &self,
        alloc: Global,
        stop: u64,
        fail: u64,
    ) -> Result<Device, AllocError> {
        let memory = MemDisk::holding(alloc, &self.a, &self.b)?;
        Ok(device_of(memory, stop, fail))
    }
}

impl<'a> Setup<'a> for Sides {
    fn new(alloc: Global) -> Sides {
        Sides {
            a: Vec::new(alloc),
            b: Vec::new(alloc),
            stop: MANY,
            fail: MANY,
            held: Held::Nothing,
        }
    }

    fn takes(&mut self, alloc: Global, line: &'a str) -> Result<bool, RowFault> {
        let mut words = Words { rest: line };
        let name = words.next();
        let is_taken = self.take_side(alloc, name, &mut words)?
            || self.take_limit(name, &mut words)?;
        Ok(is_taken && words.rest.is_empty())
    }

    fn are_met(
        &mut self,
        alloc: Global,
        calls: &Calls<'a>,
        report: &mut Report<'_>,
    ) -> Result<bool, RowFault> {
        Ok(calls.are_met(alloc, self, report)?)
    }
}

impl World for Sides {
    fn call(
        &mut self,
        alloc: Global,
        words: &mut Words<'_>,
        said: &mut String,
    ) -> Result<(), RowFault> {
        match words.next() {
            "disk" => call_disk(alloc, said, words),
            "folder" => call_folder(alloc, said, words),
            "store" => call_store(alloc, said, self, words),
            name => record_rows::call(alloc, said, name, words),
        }
    }
}
