//! What there is to note of a makefile, and how it is told.
use byte_strings::ByteString;
use std::fmt;

/// What has no meaning here.
#[derive(Drop)]
pub enum Subject {
    /// A reference that looks like a function of GNU make, by its first word.
    Function(ByteString),
    /// An automatic macro, by the byte behind its dollar.
    Automatic(u8),
    /// A suffix rule whose suffixes don't count.
    SuffixRule(ByteString),
    /// A target that has the name of a suffix rule, and prerequisites.
    PlainTarget(ByteString),
    /// A target or a macro that another make has a meaning for.
    Target(ByteString),
    /// A macro that a recipe line begins with, and the prefix that the next byte would be if the macro is empty.
    Leading(ByteString, u8),
    /// A macro that GNU make has a value for before a makefile is read.
    BuiltIn(ByteString),
    /// A macro that is referred to.
    Undefined(ByteString),
}

impl fmt::Display for Subject {
    fn fmt<W: fmt::Write>(&self, f: &mut fmt::Formatter<W>) -> fmt::Result {
        match self {
            Subject::Function(word) => { write!(f, "$({word} ..) is no function here, and empty") }
            Subject::Automatic(byte) => {
                let name = char::from(*byte);
                write!(f, "${name} is no macro here, and empty")
            }
            Subject::SuffixRule(name) => {
                write!(
                    f,
                    "{name} is no suffix rule here, since .SUFFIXES doesn't name its suffixes"
                )
            }
            Subject::PlainTarget(name) => {
                write!(
                    f,
                    "{name} has prerequisites, so it is a plain target here and no suffix rule"
                )
            }
            Subject::Target(name) => write!(f, "{name} means nothing here"),
            Subject::Leading(name, prefix) => {
                let prefix = char::from(*prefix);
                write!(
                    f,
                    "{name} is defined nowhere, so that the {prefix} behind it is a prefix of the line"
                )
            }
            Subject::BuiltIn(name) => write!(f, "{name} is built in with GNU make, and empty here"),
            Subject::Undefined(name) => write!(f, "{name} is defined nowhere"),
        }
    }
}

/// A note, with the place that it is about.
#[derive(Drop)]
pub struct Note {
    /// The file's name as it was given, or as it stands on the include line.
    pub file: ByteString,
    /// The number of the first physical line, from 1.
    pub line: usize,
    pub subject: Subject,
}

impl fmt::Display for Note {
    fn fmt<W: fmt::Write>(&self, f: &mut fmt::Formatter<W>) -> fmt::Result {
        let Note {
            file,
            line,
            subject,
        } = self;
        write!(f, "{file}:{line}: note: {subject}")
    }
}
