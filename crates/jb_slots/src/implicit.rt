//! The one slot that a make has without a token, and the line of workers that wait for a slot.

use std::sync::{Condvar, Mutex, Wait};
use std::time::Duration;

/// The longest time between two looks into a pool, in milliseconds.
const BETWEEN_LOOKS: u64 = 10;

/// What lies in a place while its slot is free. It has one maker, `Place::new`, and can't be copied or let go, so there
/// is never a second one of a place.
struct Mark {
    only: (),
}

impl Mark {
    fn destroy(self) {
        let Mark { only: () } = self;
    }
}

/// The implicit slot while a worker holds it. It goes back to the place that it was taken from, which outlives it.
pub(crate) struct ImplicitSlot<'a> {
    mark: Mark,
    place: &'a Place,
}

impl<'a> ImplicitSlot<'a> {
    pub(crate) fn put_back<R: Wait>(self, rt: &R) {
        let ImplicitSlot { mark, place } = self;
        let earlier = place.lying.lock(rt).mark.replace(mark);
        if let Some(earlier) = earlier {
            earlier.destroy();
        }
        place.changed.notify_all();
        place.hurry();
    }
}

/// The part of the one worker that watches the pool. It has one maker, the line, where the implicit slot is taken and nobody
/// watches; it can't be copied or let go, and ends by `leave`.
pub(crate) struct Watching<'a> {
    place: &'a Place,
}

/// What comes of standing in line.
pub(crate) enum Turn<'a> {
    Slot(ImplicitSlot<'a>),
    Watch(Watching<'a>),
}

struct Lying {
    /// There while no worker holds the slot.
    mark: Option<Mark>,
    /// Whether a worker watches the pool. The others wait in line meanwhile.
    is_watched: bool,
}

/// Where the implicit slot lies while no worker holds it.
pub(crate) struct Place {
    lying: Mutex<Lying>,
    /// Told to all that wait in line, or for the implicit slot alone, whenever it lies here or nobody watches.
    changed: Condvar,
    /// Told to the worker that watches whenever a slot of this make has come back.
    returned: Condvar,
}

impl Place {
    pub(crate) fn new() -> Place {
        Place {
            lying: Mutex::new(Lying {
                mark: Some(Mark { only: () }),
                is_watched: false,
            }),
            changed: Condvar::new(),
            returned: Condvar::new(),
        }
    }

    /// The slot, if it is free.
    pub(crate) fn try_take<'a, R: Wait>(&'a self, rt: &R) -> Option<ImplicitSlot<'a>> {
        match self.lying.lock(rt).mark.take() {
            Some(mark) => Some(ImplicitSlot { mark, place: self }),
            None => None,
        }
    }

    /// Waits until the slot is free.
    pub(crate) fn wait<'a, R: Wait>(&'a self, rt: &R) -> ImplicitSlot<'a> {
        let mut lying = self
            .changed
            .wait_while(rt, self.lying.lock(rt), |lying| lying.mark.is_none());
        match lying.mark.take() {
            Some(mark) => ImplicitSlot { mark, place: self },
            None => unreachable!(),
        }
    }

    /// Waits until the slot is free, or until no worker watches the pool: then this one does.
    pub(crate) fn wait_in_line<'a, R: Wait>(&'a self, rt: &R) -> Turn<'a> {
        let mut lying = self.changed.wait_while(rt, self.lying.lock(rt), |lying| {
            lying.mark.is_none() && lying.is_watched
        });
        match lying.mark.take() {
            Some(mark) => Turn::Slot(ImplicitSlot { mark, place: self }),
            None => {
                lying.is_watched = true;
                Turn::Watch(Watching { place: self })
            }
        }
    }

    /// The worker that watches, if there is one, looks again at once.
    pub(crate) fn hurry(&self) {
        self.returned.notify_one();
    }
}

impl<'a> Watching<'a> {
    /// How often slots have come back. To be read before a look, so that none that comes back behind it is missed.
    pub(crate) fn returns(&self) -> u64 {
        self.place.returned.notifications()
    }

    /// The implicit slot, if it is free by the next look, which comes as soon as more slots than `seen` have come back.
    pub(crate) fn pause<R: Wait>(&self, rt: &R, seen: u64) -> Option<ImplicitSlot<'a>> {
        let place = self.place;
        if let Some(slot) = place.try_take(rt) {
            return Some(slot);
        }
        place
            .returned
            .sleep(rt, seen, Duration::from_millis(BETWEEN_LOOKS));
        place.try_take(rt)
    }

    /// This worker watches no more.
    pub(crate) fn leave<R: Wait>(self, rt: &R) {
        let Watching { place } = self;
        place.lying.lock(rt).is_watched = false;
        place.changed.notify_all();
    }
}

impl Drop for Place {
    fn drop(self) {
        let Place {
            lying,
            changed: _,
            returned: _,
        } = self;
        let Lying {
            mark,
            is_watched: _,
        } = lying.into_inner();
        if let Some(mark) = mark {
            mark.destroy();
        }
    }
}
