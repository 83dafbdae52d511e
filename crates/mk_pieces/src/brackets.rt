//! Where brackets end, and where commas part what stands in them.
ghost use Rattle.std.specs.Prelude.{◌≡◌, ◌+◌, ◌<◌, ◌^◌, length, IfSome};
ghost use Rattle.mk_pieces.specs.Brackets.{place_of, next_depth, place_outside};

/// The first place of a byte.
pub(crate) fn place_of(text: &[u8], wanted: u8) -> Option<usize>
    ensures value { result ≡ place_of wanted text.now }
    ensures within { IfSome result (λ place. place < length text.now) }
{
    text.iter().position(|byte| *byte == wanted)
}

/// A kind of brackets.
#[derive(Clone, Copy)]
pub(crate) struct Brackets {
    pub(crate) opening: u8,
    pub(crate) close: u8,
}

impl Brackets {
    /// Within how many of them the byte behind this one stands.
    fn next_depth(self, depth: usize, byte: u8) -> usize
        requires { depth + 1 < 2 ^ 64 }
        ensures { result ≡ next_depth self.opening self.close depth byte }
    {
        if byte == self.opening {
            depth + 1
        } else if byte == self.close {
            depth.saturating_sub(1)
        } else {
            depth
        }
    }

    /// The first place of a byte outside all of them. Counting takes no memory, however deep they are.
    pub(crate) fn place_outside(self, text: &[u8], wanted: u8) -> Option<usize>
        ensures value { result ≡ place_outside wanted self.opening self.close text.now }
        ensures within { IfSome result (λ place. place < length text.now) }
    {
        let mut depth = 0;
        let mut at = 0;
        while at < text.len() {
            let byte = text[at];
            if byte == wanted && depth == 0 {
                return Some(at);
            }
            depth = self.next_depth(depth, byte);
            at += 1;
        }
        None
    }
}
