//! What is printed.

use crate::fake::Fake;
use bd_lists::Ended;
use jb_recipe::{News, Say, Step};
use std::alloc::AllocError;
use std::sync::Wait;
use std::time::Clock;

impl<R: Wait + Clock + Copy> Fake<R> {
    fn push(&self, front: &[u8], text: &[u8]) -> Result<(), AllocError> {
        let mut notes = self.notes.lock(&self.rt);
        notes.said.extend_from_slice(front)?;
        notes.said.extend_from_slice(text)?;
        notes.said.push(b'\n')?;
        Ok(())
    }

    /// Keeps one more line.
    pub fn say(&self, front: &[u8], text: &[u8]) {
        let _ = self.push(front, text);
    }
}

impl<R: Wait + Clock + Copy> Say for Fake<R> {
    fn line(&self, text: &[u8]) {
        self.say(b"", text);
    }

    fn block(&self, ended: &[Ended]) {
        for one in ended {
            if !one.out.as_slice().is_empty() {
                self.say(b"", one.out.as_slice());
            }
        }
    }

    fn tell(&self, news: News<'_>) {
        match news {
            News::Failed { target, .. } | News::NotRecorded { target, .. } => self.say(
                b"!", target,
            ),
            News::JobserverFailed => self.say(b"!", b"jobserver"),
            _ => self.say(b"!", b"news"),
        }
    }

    fn is_followed(&self) -> bool {
        false
    }

    fn step(&self, _step: Step<'_>) {}
}
