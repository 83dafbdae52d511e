//! A pool in memory: which byte a take finds, and what is refused.
use jb_slots::{Bank, MemoryBank, MemoryPool, Taken};
use std::alloc::{AllocError, Global};
use std::sync::Wait;
use std::test::Fail;

/// A call of the end of this number, and its answer.
#[derive(Clone, Copy)]
enum Step {
    Takes(usize, Taken),
    Gives(usize, u8),
    IsRefused(usize, u8),
}

// A pool of the bytes a and b; the first two ends have room for four bytes, the third for one.
static STEPS: [Step; 16] = [
    // What lies there longest is taken first, by whichever end.
    Step::Takes(0, Taken::Token(b'a')),
    Step::Takes(1, Taken::Token(b'b')),
    // An end that finds nothing finds what comes back.
    Step::Takes(2, Taken::NothingNow),
    Step::Gives(1, b'b'),
    Step::Gives(0, b'a'),
    Step::Takes(2, Taken::Token(b'b')),
    // One without room takes nothing more, though a byte lies there, and can give back what it has.
    Step::Takes(2, Taken::End),
    Step::Gives(2, b'b'),
    // Without room to note it no byte goes into the pool.
    Step::IsRefused(2, b'b'),
    Step::Takes(0, Taken::Token(b'a')),
    Step::Takes(0, Taken::Token(b'b')),
    Step::Takes(0, Taken::NothingNow),
    // The pool takes no more bytes than it began with, and an end whose byte was refused takes nothing more.
    Step::Gives(0, b'a'),
    Step::Gives(0, b'b'),
    Step::IsRefused(1, b'x'),
    Step::Takes(1, Taken::End),
];

fn steps() -> &'static [Step] {
    &STEPS
}

fn is_so<R: Wait>(ends: &mut [MemoryBank<'_, R>], step: Step) -> bool {
    let (Step::Takes(number, _) | Step::Gives(number, _) | Step::IsRefused(number, _)) = step;
    let Some(end) = ends.get_mut(number) else {
        return false;
    };
    match step {
        Step::Takes(_, wanted) => end.take() == Ok(wanted),
        Step::Gives(_, token) => end.give(token).is_ok(),
        Step::IsRefused(_, token) => end.give(token).is_err(),
    }
}

// How many steps were answered as they say, before the first that wasn't.
fn steps_that_are_so<R: Wait>(ends: &mut [MemoryBank<'_, R>]) -> usize {
    let mut count = 0usize;
    for step in steps() {
        if !is_so(ends, *step) {
            return count;
        }
        count = count.saturating_add(1);
    }
    count
}

fn add_end<'a, R: Wait>(
    rt: &'a R,
    alloc: Global,
    pool: &'a MemoryPool,
    ends: &mut Vec<MemoryBank<'a, R>>,
    room: usize,
) -> Result<(), AllocError> {
    let end = pool.end(rt, alloc, room)?;
    ends.push(end)?;
    Ok(())
}

fn add_ends<'a, R: Wait>(
    rt: &'a R,
    alloc: Global,
    pool: &'a MemoryPool,
    ends: &mut Vec<MemoryBank<'a, R>>,
) -> Result<(), AllocError> {
    add_end(rt, alloc, pool, ends, 4)?;
    add_end(rt, alloc, pool, ends, 4)?;
    add_end(rt, alloc, pool, ends, 1)
}

fn steps_of_a_pool<R: Wait>(rt: &R, alloc: Global) -> Result<usize, AllocError> {
    let pool = MemoryPool::new(alloc, b"ab")?;
    let mut ends = Vec::new(alloc);
    add_ends(rt, alloc, &pool, &mut ends)?;
    Ok(steps_that_are_so(ends.as_mut_slice()))
}

#[test]
fn each_step_is_answered_as_it_says(rt: HostRuntime) -> Result<(), Fail> {
    let count = steps_of_a_pool(&rt, rt.alloc())?;
    assert_eq!(rt; count, steps().len());
    Ok(())
}
