//! Which recipe begins.
//!
//! Who waits holds nothing, and stands in a line. The first of it who may begin does, so recipes begin in the order in which they came,
//! but for those of a pool that is full. Whoever waits for the terminal lets nobody behind it pass, so that it gets its turn.

use jb_flags::Load;
use jb_recipe::Turn;
use mk_settings::Share;
use std::alloc::{AllocError, Global};
use std::fs;
use std::sync::atomic::{AtomicBool, Ordering};
use std::sync::{Condvar, Mutex, Wait};
use std::time::Duration;

/// How long nobody looks where nothing has changed, in milliseconds: the load does without being told.
const BETWEEN_LOOKS: u64 = 500;

/// A recipe that waits.
#[derive(Clone, Copy)]
struct Waiting {
    number: u64,
    turn: Turn,
}

/// Which recipes run and wait.
#[derive(Drop)]
struct Standing {
    /// How many run.
    running: usize,
    /// One of them has the terminal alone.
    is_alone: bool,
    /// How many run of each pool.
    in_pools: Vec<usize>,
    /// Those that wait, in the order in which they came.
    line: Vec<Waiting>,
    /// How many have come.
    came: u64,
}

/// The turns of a run's recipes.
#[derive(Drop)]
pub struct Turns {
    host: HostRuntime,
    /// The load from which on no further recipe begins beside others, if one is said.
    load: Option<Load>,
    standing: Mutex<Standing>,
    /// Told whenever a recipe has begun or ended.
    changed: Condvar,
    /// As it stands there, for those who ask often.
    is_alone: AtomicBool,
}

impl Standing {
    fn running_of(&self, pool: usize) -> usize {
        match self.in_pools.get(pool) {
            Some(running) => *running,
            None => 0,
        }
    }

    /// Whether no further recipe of its pool may begin.
    fn is_full(&self, share: Option<Share>) -> bool {
        match share {
            Some(share) => self.running_of(share.pool) >= usize::from(share.most),
            None => false,
        }
    }

    /// Whether a recipe may begin beside those that run.
    fn is_free(&self, turn: Turn, is_busy: bool) -> bool {
        if self.running == 0 {
            return true;
        }
        !self.is_alone && !turn.is_alone && !is_busy && self.running < turn.at_once
    }

    /// The first in the line who may begin.
    fn next(&self, is_busy: bool) -> Option<u64> {
        for waiting in self.line.iter() {
            if self.is_full(waiting.turn.share) {
                continue;
            }
            if self.is_free(waiting.turn, is_busy) {
                return Some(waiting.number);
            }
            return None;
        }
        None
    }

    /// Stands in line.
    fn come(&mut self, turn: Turn) -> Result<u64, AllocError> {
        let number = self.came;
        self.make_room(turn.share)?;
        self.line.push(Waiting { number, turn })?;
        self.came = self.came.saturating_add(1);
        Ok(number)
    }

    /// Room to count those of its pool.
    fn make_room(&mut self, share: Option<Share>) -> Result<(), AllocError> {
        if let Some(share) = share {
            for _ in self.in_pools.len()..share.pool.saturating_add(1) {
                self.in_pools.push(0)?;
            }
        }
        Ok(())
    }

    /// The one with this number begins.
    fn begin(&mut self, number: u64, turn: Turn) {
        if let Some(place) = self
            .line
            .iter()
            .position(|waiting| waiting.number == number)
        {
            self.line.remove(place);
        }
        self.running = self.running.saturating_add(1);
        self.is_alone = turn.is_alone;
        if let Some(share) = turn.share {
            if let Some(running) = self.in_pools.get_mut(share.pool) {
                *running = running.saturating_add(1);
            }
        }
    }

    fn end(&mut self, turn: Turn) {
        self.running = self.running.saturating_sub(1);
        if turn.is_alone {
            self.is_alone = false;
        }
        if let Some(share) = turn.share {
            if let Some(running) = self.in_pools.get_mut(share.pool) {
                *running = running.saturating_sub(1);
            }
        }
    }
}

impl Turns {
    /// Nobody runs or waits. No recipe begins beside others from this load of the machine on, if one is said.
    pub fn new(host: HostRuntime, alloc: Global, load: Option<Load>) -> Turns {
        Turns {
            host,
            load,
            standing: Mutex::new(Standing {
                running: 0,
                is_alone: false,
                in_pools: Vec::new(alloc),
                line: Vec::new(alloc),
                came: 0,
            }),
            changed: Condvar::new(),
            is_alone: AtomicBool::new(false),
        }
    }

    /// Whether a recipe runs that has the terminal alone.
    pub fn is_alone(&self) -> bool {
        self.is_alone.load(Ordering::SeqCst)
    }

    /// Whether the machine is too busy for a further recipe. Where its load can't be told it isn't.
    fn is_busy(&self) -> bool {
        let Some(most) = self.load else {
            return false;
        };
        match load_of(self.host) {
            Some(load) => !load.is_below(most),
            None => false,
        }
    }

    /// Whether it has begun, which waits under this number.
    fn tries<R: Wait>(&self, rt: &R, number: u64, turn: Turn) -> bool {
        let is_busy = self.is_busy();
        let mut standing = self.standing.lock(rt);
        if standing.next(is_busy) != Some(number) {
            return false;
        }
        self.begin(&mut *standing, number, turn);
        true
    }

    /// Stands in line, unless it begins at once; then there is no number.
    fn come<R: Wait>(&self, rt: &R, turn: Turn) -> Result<Option<u64>, AllocError> {
        let is_busy = self.is_busy();
        let mut standing = self.standing.lock(rt);
        let number = standing.come(turn)?;
        if standing.next(is_busy) != Some(number) {
            return Ok(Some(number));
        }
        self.begin(&mut *standing, number, turn);
        Ok(None)
    }

    fn begin(&self, standing: &mut Standing, number: u64, turn: Turn) {
        standing.begin(number, turn);
        self.is_alone.store(turn.is_alone, Ordering::SeqCst);
    }

    /// Waits until a recipe may begin, and tells whether it had to.
    pub fn enter<R: Wait>(&self, rt: &R, turn: Turn) -> Result<bool, AllocError> {
        let Some(number) = self.come(rt, turn)? else {
            return Ok(false);
        };
        for _ in rt.forever() {
            let seen = self.changed.notifications();
            if self.tries(rt, number, turn) {
                break;
            }
            self.changed
                .sleep(rt, seen, Duration::from_millis(BETWEEN_LOOKS));
        }
        // Who stands behind it may begin too.
        self.changed.notify_all();
        Ok(true)
    }

    /// It has ended.
    pub fn leave<R: Wait>(&self, rt: &R, turn: Turn) {
        let mut standing = self.standing.lock(rt);
        standing.end(turn);
        if turn.is_alone {
            self.is_alone.store(false, Ordering::SeqCst);
        }
        drop(standing);
        self.changed.notify_all();
    }
}

/// The load of the last minute, as the system tells it (proc(5), /proc/loadavg).
fn load_of(host: HostRuntime) -> Option<Load> {
    let text = fs::read_to_string(&host, "/proc/loadavg").ok()?;
    let (word, _rest) = text.as_str().split_once(' ')?;
    Load::of(word.as_bytes())
}
