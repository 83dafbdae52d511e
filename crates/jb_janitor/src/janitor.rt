//! Who ends the recipes under way where their run is ended from outside: a process beside it, which is told of each that begins and
//! ends, and sees when nobody is left to tell it. So it is the same whatever ends the run.

use crate::script::{DRAWS, JANITOR, START};
use crate::worker::worker_name;
use std::alloc::AllocError;
use std::fs::{self, File};
use std::io::{self, Read, Write};
use std::mem;
use std::os::unix::fs::MetadataExt;
use std::process::{Child, Command, Stdio};
use std::sync::{Mutex, Wait};

/// The variable that tells which recipes a process belongs to: of each run above the one under way, the lowest one's last.
pub const RECIPES: &str = "DMK_RECIPES";

/// The variable that tells which recipes the run of a janitor belongs to.
const JANITOR_OF: &str = "DMK_JANITOR";

/// What a janitor has to know of its run.
pub struct Duty {
    /// What the run is known by among all.
    pub run: String,
    /// The recipes that the run belongs to, as its environment has them.
    pub above: String,
    /// The name of the state's side A.
    pub state: String,
    /// A status line is drawn on standard error.
    pub draws: bool,
    /// What the run is in its folder by, as long as somebody has a handle of it.
    pub presence: Option<File>,
}

impl Drop for Duty {
    fn drop(self) {
        let Duty {
            run: _,
            above: _,
            state: _,
            draws: _,
            presence: _,
        } = self;
    }
}

/// A recipe under way.
#[derive(Drop)]
struct UnderWay {
    /// The thread that runs its lines, as the system names it.
    worker: String,
    number: u64,
}

/// The process that is told.
#[derive(Drop)]
enum Post {
    /// No recipe has begun yet.
    Open,
    Taken(Child),
    /// It couldn't be started, or is gone, or the run is over.
    Vacant,
}

/// Which recipes are under way, and who is told.
#[derive(Drop)]
struct Book {
    /// How many recipes have begun.
    begun: u64,
    under_way: Vec<UnderWay>,
    post: Post,
}

/// Who ends the recipes under way where the run is ended from outside. The process is started with the first recipe. Nothing is claimed
/// of it: where it can't be started, or is killed, the run goes on without.
#[derive(Drop)]
pub struct Janitor<'a, R: Wait> {
    rt: &'a R,
    host: HostRuntime,
    /// None where none is wanted.
    duty: Option<Duty>,
    book: Mutex<Book>,
}

// The time of a target's file before its recipe, as the janitor reads it; empty where the file stays.
fn time_of(host: HostRuntime, target: &[u8], goes: bool) -> Result<String, AllocError> {
    let alloc = host.alloc();
    if !goes {
        return Ok(String::new(alloc));
    }
    let Ok(name) = std::str::from_utf8(target) else {
        return Ok(String::new(alloc));
    };
    match fs::symlink_metadata(&host, name) {
        Ok(found) if found.is_file() => {
            let seconds = found.mtime();
            let nanoseconds = found.mtime_nsec();
            format!(in alloc; "{seconds}.{nanoseconds:09}")
        }
        _ => String::from_str(alloc, "none"),
    }
}

// What is told of a recipe that begins.
fn told_begun(
    host: HostRuntime,
    number: u64,
    target: &[u8],
    goes: bool,
) -> Result<Vec<u8>, AllocError> {
    let alloc = host.alloc();
    let time = time_of(host, target, goes)?;
    let head = format!(in alloc; "+{number}\n{time}\n")?;
    let mut text = Vec::from_slice(alloc, head.as_bytes())?;
    text.extend_from_slice(target)?;
    text.extend_from_slice(b"\n")?;
    Ok(text)
}

fn told_ended(host: HostRuntime, number: u64) -> Result<String, AllocError> {
    format!(in host.alloc(); "-{number}\n")
}

// A janitor that was started, once no signal to the run's group ends it any more.
fn ready(mut child: Child) -> io::Result<Child> {
    if let Some(mut told) = child.stderr.take() {
        let _ = told.read(&mut [0u8; 1])?;
    }
    Ok(child)
}

impl Post {
    // Tells a text. Who doesn't take it is gone.
    fn tell(&mut self, text: &[u8]) {
        let is_told = match self {
            Post::Taken(child) => match &mut child.stdin {
                Some(pipe) => pipe.write_all(text).is_ok(),
                None => false,
            },
            Post::Open | Post::Vacant => true,
        };
        if !is_told {
            *self = Post::Vacant;
        }
    }
}

impl Book {
    // The number of the recipe whose lines this worker runs.
    fn number_of(&self, worker: &str) -> Option<u64> {
        for recipe in &self.under_way {
            if recipe.worker.as_str() == worker {
                return Some(recipe.number);
            }
        }
        None
    }

    // The number of a recipe that begins; None where there is no memory for it.
    fn enter(&mut self, worker: String) -> Option<u64> {
        let number = self.begun.saturating_add(1);
        self.under_way.push(UnderWay { worker, number }).ok()?;
        self.begun = number;
        Some(number)
    }

    // The number of the recipe that this worker has ended.
    fn leave(&mut self, worker: &str) -> Option<u64> {
        let place = self
            .under_way
            .iter()
            .position(|recipe| recipe.worker.as_str() == worker)?;
        let UnderWay { worker: _, number } = self.under_way.swap_remove(place);
        Some(number)
    }
}

impl<'a, R: Wait> Janitor<'a, R> {
    pub fn new(rt: &'a R, host: HostRuntime, duty: Option<Duty>) -> Janitor<'a, R> {
        Janitor {
            rt,
            host,
            duty,
            book: Mutex::new(Book {
                begun: 0,
                under_way: Vec::new(host.alloc()),
                post: Post::Open,
            }),
        }
    }

    // The janitor belongs to no recipe: those of the runs above wait until it is done.
    fn start(&self, duty: &Duty) -> io::Result<Child> {
        let mut command = Command::new(self.host.alloc(), "/bin/sh")?;
        command.arg("-c")?.arg(START)?.arg(JANITOR)?;
        command.arg(duty.run.as_str())?.arg(duty.state.as_str())?;
        command.arg(if duty.draws { DRAWS } else { "" })?;
        command.env_remove(RECIPES)?;
        command.env(JANITOR_OF, duty.above.as_str())?;
        command.stdin(Stdio::piped());
        command.stdout(match &duty.presence {
            Some(folder) => Stdio::from(folder.try_clone()?),
            None => Stdio::null(),
        });
        command.stderr(Stdio::piped());
        let child = command.spawn(&self.host);
        drop(command);
        ready(child?)
    }

    fn taken(&self, duty: &Duty) -> Post {
        match self.start(duty) {
            Ok(child) => Post::Taken(child),
            Err(_) => Post::Vacant,
        }
    }

    /// A recipe of this target begins, whose lines this thread runs. Where `goes`, the target's file is removed if the run is stopped
    /// meanwhile and the recipe has changed it.
    pub fn begin(&self, target: &[u8], goes: bool) {
        let Some(duty) = &self.duty else {
            return;
        };
        let Some(worker) = worker_name(self.host) else {
            return;
        };
        let mut book = self.book.lock(self.rt);
        if matches!(book.post, Post::Open) {
            book.post = self.taken(duty);
        }
        let Some(number) = book.enter(worker) else {
            return;
        };
        if let Ok(text) = told_begun(self.host, number, target, goes) {
            book.post.tell(&text);
        }
    }

    /// What the lines that this thread runs are known by: the recipes that they belong to.
    pub fn recipes(&self) -> Option<String> {
        let duty = self.duty.as_ref()?;
        let worker = worker_name(self.host)?;
        let number = self.book.lock(self.rt).number_of(worker.as_str())?;
        let above = duty.above.as_str();
        let run = duty.run.as_str();
        format!(in self.host.alloc(); "{above}[{run}.{number}]").ok()
    }

    /// The recipe has ended whose lines this thread runs.
    pub fn end(&self) {
        if self.duty.is_none() {
            return;
        }
        let Some(worker) = worker_name(self.host) else {
            return;
        };
        let mut book = self.book.lock(self.rt);
        let Some(number) = book.leave(worker.as_str()) else {
            return;
        };
        if let Ok(text) = told_ended(self.host, number) {
            book.post.tell(text.as_bytes());
        }
    }

    /// The run is over. The process ends, and is waited for: it has nothing to do then.
    pub fn close(&self) {
        let mut book = self.book.lock(self.rt);
        let post = mem::replace(&mut book.post, Post::Vacant);
        drop(book);
        if let Post::Taken(mut child) = post {
            drop(child.stdin.take());
            let _ = child.wait();
        }
    }
}
