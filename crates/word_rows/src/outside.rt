//! The world outside, as a row has it: what it answers, and what was asked and said.
use mk_functions::Outside;
use mk_pieces::{Function, Message, Question};
use row_files::bytes;
use std::alloc::{AllocError, Global};

/// What is answered to a question.
#[derive(Drop)]
pub(crate) struct Answer {
    pub(crate) question: Question,
    pub(crate) text: Vec<u8>,
    pub(crate) value: Vec<u8>,
}

#[derive(Drop)]
pub(crate) struct Told {
    pub(crate) answers: Vec<Answer>,
    /// What was asked and said so far.
    pub(crate) said: String,
}

/// A question, by the name of its function.
pub(crate) fn question_of(word: &str) -> Option<Question> {
    match word {
        "shell" => Some(Question::Shell),
        "wildcard" => Some(Question::Wildcard),
        "realpath" => Some(Question::RealPath),
        "abspath" => Some(Question::AbsPath),
        _ => None,
    }
}

fn is_same(one: Question, other: Question) -> bool {
    Function::Asks(one).name() == Function::Asks(other).name()
}

/// Of what isn't told, nothing.
fn answered<'a>(answers: &'a [Answer], question: Question, text: &[u8]) -> &'a [u8] {
    for answer in answers {
        if is_same(answer.question, question) && answer.text.as_slice() == text {
            return answer.value.as_slice();
        }
    }
    &[]
}

/// Says what a function is asked, or told to say.
fn say(said: &mut String, function: Function, text: &[u8]) -> Result<(), AllocError> {
    bytes::say(said, function.name())?;
    said.push(':')?;
    bytes::say_all(said, text)?;
    said.push(' ')
}

/// No world is claimed to be the one that is told of.
impl Outside for Told {
    ghost allows = { λ _ _. ⊥ };

    fn answer(
        &mut self,
        alloc: Global,
        question: Question,
        text: &[u8],
    ) -> Result<Vec<u8>, AllocError> {
        say(&mut self.said, Function::Asks(question), text)?;
        Vec::from_slice(alloc, answered(self.answers.as_slice(), question, text))
    }

    fn say(&mut self, _alloc: Global, message: Message, text: &[u8]) -> Result<(), AllocError> {
        say(&mut self.said, Function::Says(message), text)
    }
}
