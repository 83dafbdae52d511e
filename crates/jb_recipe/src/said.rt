//! What a 'done' says of explicit names.
ghost use Rattle.std.specs.Prelude.{◌≡◌};
ghost use Rattle.jb_recipe.specs.Noting.{said_in};

use byte_strings::{ByteString, ByteStrings};
use st_records::{Explicit, Form};

/// The explicit names of a target, as a record of this form says them, with the text of the marks of its files where it has those.
pub fn said_in(form: Form, names: ByteStrings, marks: ByteString) -> Explicit
    ensures { result ≡ said_in form names marks }
{
    match form {
        Form::Old => Explicit::Unknown,
        Form::Plain => Explicit::Known(names),
        Form::Marked => Explicit::Marked(names, marks),
    }
}
