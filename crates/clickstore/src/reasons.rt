// Why words that ask for nothing are not taken.
use crate::commands::Command;
use crate::forms::Form;
use small_types::Word;
use std::fmt;

// Why a word is not taken.
#[derive(Clone, Copy)]
pub(crate) enum Why {
    // It does not have this form.
    IsNo(Form),
    // It is not there, and has this form.
    IsMissing(Form),
    // It is an option without a value, which has this form.
    NoValue(Form),
    // This option belongs there.
    InPlaceOf(&'static str),
    // Else, in words.
    Words(&'static str),
}

// The first word that is not taken, and why. It is one line, in which the control characters and
// quotes of the word are escaped.
#[derive(Clone, Copy)]
pub(crate) struct Misread<'a> {
    // The command that does not take it.
    command: Option<Command>,
    // The option whose value it is, or what else stands in its place.
    option: Option<&'static str>,
    word: Option<&'a str>,
    why: Why,
}

const NO_COMMAND: &str = "there is no command: behind STORE and FOLDER stands format, session, \
    inspect, publish or demo; see clickstore --help";

const NO_SUCH_COMMAND: &str = "is no command: behind STORE and FOLDER stands format, session, \
    inspect, publish or demo; see clickstore --help";

impl<'a> Misread<'a> {
    // Of no command, and of no word.
    fn all(why: &'static str) -> Misread<'a> {
        Misread {
            command: None,
            option: None,
            word: None,
            why: Why::Words(why),
        }
    }

    // There is no command.
    pub(crate) fn no_command() -> Misread<'a> {
        Misread::all(NO_COMMAND)
    }

    // This is no command.
    pub(crate) fn no_such_command(name: &'a str) -> Misread<'a> {
        Misread {
            command: None,
            option: None,
            word: Some(name),
            why: Why::Words(NO_SUCH_COMMAND),
        }
    }

    // A word is no text.
    pub(crate) fn no_text() -> Misread<'a> {
        Misread::all("a word is not UTF-8; see clickstore --help")
    }

    // A word of the command, or the value of this option, that is not taken.
    pub(crate) fn of(
        command: Command,
        option: Option<&'static str>,
        word: Option<&'a str>,
        why: Why,
    ) -> Misread<'a> {
        Misread {
            command: Some(command),
            option,
            word,
            why,
        }
    }
}

impl fmt::Display for Why {
    fn fmt<W: fmt::Write>(&self, f: &mut fmt::Formatter<W>) -> fmt::Result {
        match self {
            Why::IsNo(form) => write!(f, "is no {}: {}", form.noun(), form.wanted()),
            Why::IsMissing(form) => write!(f, "is missing: {}", form.wanted()),
            Why::NoValue(form) => write!(f, "has no value: {}", form.wanted()),
            Why::InPlaceOf(option) => write!(f, "stands where {option} is wanted"),
            Why::Words(words) => write!(f, "{words}"),
        }
    }
}

impl fmt::Display for Misread<'_> {
    fn fmt<W: fmt::Write>(&self, f: &mut fmt::Formatter<W>) -> fmt::Result {
        if let Some(command) = self.command {
            write!(f, "{}: ", command.name())?;
        }
        if let Some(option) = self.option {
            write!(f, "{option} ")?;
        }
        if let Some(word) = self.word {
            let word = word.escape_debug();
            write!(f, "'{word}' ")?;
        }
        write!(f, "{}", self.why)
    }
}

// The word as text.
pub(crate) fn text_of(word: &Word) -> Result<&str, Misread<'_>> {
    match str::from_utf8(word.as_slice()) {
        Ok(text) => Ok(text),
        Err(_) => Err(Misread::no_text()),
    }
}
