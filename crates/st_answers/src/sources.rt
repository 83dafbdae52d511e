//! Sources that a command names.

ghost use Rattle.std.specs.Prelude.{◌≡◌, true};
ghost use Rattle.st_answers.specs.Compilations.{c_suffixes, other_suffixes, fortran_suffixes, has_suffix, parts_words, is_behind_word, begins_with_word, has_word, is_source, is_source_in};

/// The file is a source that the command names.
pub(crate) fn is_source_in(command: &[u8], name: &[u8]) -> bool
    ensures { result ≡ is_source_in command.now name.now }
{
    is_source(name) && has_word(name, command)
}

fn is_source(name: &[u8]) -> bool
    ensures { result ≡ is_source name.now }
{
    is_c(name) || is_other(name) || is_fortran(name)
}

fn is_c(name: &[u8]) -> bool
    ensures { result ≡ has_suffix c_suffixes name.now }
{
    name.ends_with(b".c")
        || name.ends_with(b".i")
        || name.ends_with(b".cc")
        || name.ends_with(b".cp")
        || name.ends_with(b".cxx")
        || name.ends_with(b".cpp")
        || name.ends_with(b".c++")
        || name.ends_with(b".C")
}

// C++ too, Objective C and assembler.
fn is_other(name: &[u8]) -> bool
    ensures { result ≡ has_suffix other_suffixes name.now }
{
    name.ends_with(b".CPP")
        || name.ends_with(b".ii")
        || name.ends_with(b".m")
        || name.ends_with(b".mm")
        || name.ends_with(b".M")
        || name.ends_with(b".s")
        || name.ends_with(b".S")
        || name.ends_with(b".sx")
}

fn is_fortran(name: &[u8]) -> bool
    ensures { result ≡ has_suffix fortran_suffixes name.now }
{
    name.ends_with(b".f")
        || name.ends_with(b".for")
        || name.ends_with(b".F")
        || name.ends_with(b".f90")
        || name.ends_with(b".f95")
        || name.ends_with(b".f03")
        || name.ends_with(b".f08")
        || name.ends_with(b".F90")
}

fn has_word(name: &[u8], text: &[u8]) -> bool
    ensures { result ≡ has_word true name.now text.now }
{
    let mut may_begin = true;
    let mut rest = text;
    while let Some((byte, behind)) = rest.split_first() {
        if may_begin && begins_with_word(name, rest) {
            return true;
        }
        may_begin = parts_words(*byte);
        rest = behind;
    }
    false
}

fn begins_with_word(name: &[u8], text: &[u8]) -> bool
    ensures { result ≡ begins_with_word name.now text.now }
{
    match text.strip_prefix(name) {
        Some(behind) => is_behind_word(behind),
        None => false,
    }
}

fn is_behind_word(text: &[u8]) -> bool
    ensures { result ≡ is_behind_word text.now }
{
    match text.split_first() {
        Some((byte, _)) => parts_words(*byte),
        None => true,
    }
}

fn parts_words(byte: u8) -> bool
    ensures { result ≡ parts_words byte }
{
    byte == b' '
        || byte == b'\t'
        || byte == b'\n'
        || byte == b';'
        || byte == b'&'
        || byte == b'|'
        || byte == b'('
        || byte == b')'
        || byte == b'<'
        || byte == b'>'
        || byte == b'\''
        || byte == b'"'
        || byte == b'`'
}
