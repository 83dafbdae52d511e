//! Marks at which texts are cut.
ghost use Rattle.std.specs.Prelude.{◌≡◌};
ghost use Rattle.mk_target_lines.specs.Cut.{is_mark};

use byte_strings::is_blank;

#[derive(Clone, Copy)]
pub(crate) enum Mark {
    Byte(u8),
    /// A space or a TAB.
    Blank,
    BlankOr(u8),
}

impl Mark {
    pub(crate) fn is(self, byte: u8) -> bool
        ensures { result ≡ is_mark self byte }
    {
        match self {
            Mark::Byte(mark) => byte == mark,
            Mark::Blank => is_blank(byte),
            Mark::BlankOr(mark) => is_blank(byte) || byte == mark,
        }
    }
}
