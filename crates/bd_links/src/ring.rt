//! Places linked in rings.

ghost use Rattle.std.specs.Prelude.{◌≡◌, ◌<◌, length, slice_index, slice_set};
ghost use Rattle.bd_links.specs.Ring.{IsRing};

/// Each place has the one behind it and the one before it. A place that is linked to no other is behind itself.
#[derive(Debug)]
pub(crate) struct Ring {
    pub(crate) next: Vec<usize>,
    pub(crate) prev: Vec<usize>,
}

impl Drop for Ring {
    fn drop(self) {
        let Ring { next: _, prev: _ } = self;
    }
}

impl Ring {
    /// The place behind a place.
    pub(crate) fn next(&self, place: usize) -> usize
        requires { place < length self.now.next.items }
        ensures { result ≡ slice_index self.now.next.items place }
    {
        self.next[place]
    }

    /// Takes a place out of its ring; it is one of its own then.
    pub(crate) fn unlink(&mut self, place: usize)
        requires ring { IsRing (slice_index self.old.next.items) (slice_index self.old.prev.items) (length self.old.next.items) }
        requires same { length self.old.prev.items ≡ length self.old.next.items }
        requires place { place < length self.old.next.items }
        ensures next { self.new.next.items ≡ slice_set
            (slice_set self.old.next.items (slice_index self.old.prev.items place) (slice_index self.old.next.items place))
            place place }
        ensures prev { self.new.prev.items ≡ slice_set
            (slice_set self.old.prev.items (slice_index self.old.next.items place) (slice_index self.old.prev.items place))
            place place }
    {
        let (before, behind) = (self.prev[place], self.next[place]);
        self.next[before] = behind;
        self.prev[behind] = before;
        self.next[place] = place;
        self.prev[place] = place;
    }

    /// Puts the ring that begins at `start` before `end`, which is in another one.
    pub(crate) fn splice(&mut self, end: usize, start: usize)
        requires ring { IsRing (slice_index self.old.next.items) (slice_index self.old.prev.items) (length self.old.next.items) }
        requires same { length self.old.prev.items ≡ length self.old.next.items }
        requires end { end < length self.old.next.items }
        requires start { start < length self.old.next.items }
        ensures next { self.new.next.items ≡ slice_set
            (slice_set self.old.next.items (slice_index self.old.prev.items end) start)
            (slice_index self.old.prev.items start) end }
        ensures prev { self.new.prev.items ≡ slice_set
            (slice_set self.old.prev.items start (slice_index self.old.prev.items end))
            end (slice_index self.old.prev.items start) }
    {
        let (last, tail) = (self.prev[end], self.prev[start]);
        self.next[last] = start;
        self.prev[start] = last;
        self.next[tail] = end;
        self.prev[end] = tail;
    }
}
