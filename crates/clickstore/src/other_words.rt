// What is wrong with words that ask for nothing.
use crate::commands::Command;
use crate::forms::Form;
use crate::publish_words::read_publish;
use crate::reasons::{Misread, Why, text_of};
use small_types::Word;
use std::alloc::Global;

// The words of a command that were not read yet.
#[derive(Drop)]
struct Rest<'a> {
    alloc: Global,
    command: Command,
    words: &'a [Word],
}

impl<'a> Rest<'a> {
    // The next word, if there is one.
    fn next(&mut self) -> Result<Option<&'a str>, Misread<'a>> {
        let Some((word, rest)) = self.words.split_first() else {
            return Ok(None);
        };
        self.words = rest;
        match text_of(word) {
            Ok(text) => Ok(Some(text)),
            Err(why) => Err(why),
        }
    }

    // A word of this form, which is called so.
    fn value(&mut self, called: Option<&'static str>, form: Form) -> Result<(), Misread<'a>> {
        match self.next()? {
            Some(word) if form.is_missed(self.alloc, word) => {
                Err(Misread::of(self.command, called, Some(word), Why::IsNo(form)))
            }
            Some(_) => Ok(()),
            None => {
                let called = called.or(Some("a word"));
                Err(Misread::of(self.command, called, None, Why::IsMissing(form)))
            }
        }
    }

    // This option, and its value of this form.
    fn option(&mut self, option: &'static str, form: Form) -> Result<(), Misread<'a>> {
        match self.next()? {
            None => Err(Misread::of(self.command, Some(option), None, Why::IsMissing(form))),
            Some(word) if word != option => {
                Err(Misread::of(self.command, None, Some(word), Why::InPlaceOf(option)))
            }
            Some(_) if self.words.is_empty() => {
                Err(Misread::of(self.command, Some(option), None, Why::NoValue(form)))
            }
            Some(_) => self.value(Some(option), form),
        }
    }

    // No more words.
    fn end(&mut self) -> Result<(), Misread<'a>> {
        match self.next()? {
            Some(word) => {
                let why = Why::Words("is one word too many");
                Err(Misread::of(self.command, None, Some(word), why))
            }
            None => Ok(()),
        }
    }

    // The words of the command, in their order.
    fn all(&mut self) -> Result<(), Misread<'a>> {
        match self.command {
            Command::Format => {
                self.option("--blocks", Form::Blocks)?;
                if !self.words.is_empty() {
                    self.option("--half", Form::Half)?;
                }
            }
            Command::Session => {
                self.option("--boot", Form::Number)?;
                self.option("--now", Form::Number)?;
            }
            Command::Inspect => self.value(None, Form::Kind)?,
            Command::Demo => self.value(Some("SEED"), Form::Number)?,
            Command::Publish => return read_publish(self.alloc, self.words),
        }
        self.end()
    }
}

// What is wrong with the words behind a command, which does not take them.
fn what_is_wrong_behind(alloc: Global, command: Command, words: &[Word]) -> Misread<'_> {
    let mut rest = Rest {
        alloc,
        command,
        words,
    };
    match rest.all() {
        Err(why) => why,
        Ok(()) => {
            let why = Why::Words("these words are not taken; see clickstore --help");
            Misread::of(command, None, None, why)
        }
    }
}

// What is wrong with these words, which ask for nothing.
pub(crate) fn what_is_wrong(alloc: Global, words: &[Word]) -> Misread<'_> {
    let Some((word, rest)) = words.split_first() else {
        return Misread::no_command();
    };
    match text_of(word) {
        Ok(name) => match Command::of(name) {
            Some(command) => what_is_wrong_behind(alloc, command, rest),
            None => Misread::no_such_command(name),
        },
        Err(why) => why,
    }
}
