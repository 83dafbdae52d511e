//! The bytes that the names of a table begin and end with. They tell of most names that aren't there, without a search:
//! sources seldom begin and end as targets do.
//! A filter over all bytes of a name would tell more, but it has to grow with the table and costs each name a hash.
ghost use Rattle.std.specs.Prelude.{◌≡◌, List, ℕ, true, false, replicate};
ghost use Rattle.name_keys.specs.Ends.{may_have};

const BYTES: usize = 256;

/// Which bytes the names of a table begin with, and which they end with. It is never told too little: names that are taken
/// out may stay marked.
#[derive(Debug, Drop)]
pub struct NameEnds {
    first: [bool; BYTES],
    last: [bool; BYTES],
}

impl NameEnds {
    /// Those of no names.
    pub fn none() -> NameEnds
        ensures first { result.first ≡ replicate 256 false }
        ensures last { result.last ≡ replicate 256 false }
    {
        NameEnds {
            first: [false; BYTES],
            last: [false; BYTES],
        }
    }

    /// Those of names of which nothing is known: any may be there.
    pub fn any() -> NameEnds
        ensures { (name : List ℕ) → may_have result name ≡ true }
    {
        NameEnds {
            first: [true; BYTES],
            last: [true; BYTES],
        }
    }

    /// Whether a name with this one's first and last byte may be there. The empty name may be there always.
    #[inline(always)]
    pub fn may_have(&self, name: &[u8]) -> bool
        ensures { result ≡ may_have self.now name.now }
    {
        if name.is_empty() {
            return true;
        }
        self.first[name[0] as usize] && self.last[name[name.len() - 1] as usize]
    }

    /// Takes in that a name is there.
    pub fn mark(&mut self, name: &[u8])
        ensures marked { may_have self.new name.now ≡ true }
        ensures kept { (other : List ℕ) → may_have self.old other ≡ true → may_have self.new other ≡ true }
    {
        if !name.is_empty() {
            self.first[name[0] as usize] = true;
            self.last[name[name.len() - 1] as usize] = true;
        }
    }
}
