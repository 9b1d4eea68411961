// What is wrong with the words behind `publish`, as far as it can be told by looking at them again.
use crate::commands::Command;
use crate::forms::{Form, data_mark, group_mark};
use crate::reasons::{Misread, Why, text_of};
use small_types::Word;
use std::alloc::Global;

// An option.
#[derive(Clone, Copy, PartialEq, Eq)]
enum Choice {
    Name,
    Release,
    Entry,
    From,
    To,
    Publisher,
    Minimum,
    Check,
    Provider,
    Plain,
}

const CHOICES: [Choice; 10] = [
    Choice::Name,
    Choice::Release,
    Choice::Entry,
    Choice::From,
    Choice::To,
    Choice::Publisher,
    Choice::Minimum,
    Choice::Check,
    Choice::Provider,
    Choice::Plain,
];

impl Choice {
    fn name(self) -> &'static str {
        match self {
            Choice::Name => "--name",
            Choice::Release => "--release",
            Choice::Entry => "--entry",
            Choice::From => "--from",
            Choice::To => "--to",
            Choice::Publisher => "--publisher",
            Choice::Minimum => "--minimum",
            Choice::Check => "--check",
            Choice::Provider => "--provider",
            Choice::Plain => "--plain",
        }
    }

    // The form of its value, if it has one.
    fn form(self) -> Option<Form> {
        match self {
            Choice::Name => Some(Form::Product),
            Choice::Release | Choice::Minimum => Some(Form::Version),
            Choice::Entry | Choice::From | Choice::To => Some(Form::File),
            Choice::Publisher => Some(Form::Publisher),
            Choice::Check => Some(Form::Check),
            Choice::Provider => Some(Form::Address),
            Choice::Plain => None,
        }
    }

    // Whether it has to be there.
    fn is_needed(self) -> bool {
        match self {
            Choice::Name | Choice::Release | Choice::Entry | Choice::From | Choice::To => true,
            _ => false,
        }
    }

    // The option that a word names, with its value or without one.
    fn of(word: &str) -> Option<Choice> {
        let name = match word.split_once('=') {
            Some((name, _)) => name,
            None => word,
        };
        for choice in CHOICES {
            if choice.name() == name {
                return Some(choice);
            }
        }
        None
    }
}

// What the next word is.
#[derive(Clone, Copy)]
enum Next {
    // An option or a mark.
    Any,
    // The value of this option, which has this form.
    Value(Choice, Form),
    // A mark, behind `--`.
    Mark,
}

// Whether the word is read as an option where one may stand.
fn is_dashed(word: &str) -> bool {
    word.starts_with('-') && word != "-"
}

// Whether the option stands there so often, or more often. No value begins as an option does.
fn stands(words: &[Word], choice: Choice, most: usize) -> bool {
    let mut left = most;
    for word in words {
        if word.as_slice() == b"--".as_slice() {
            return left == 0;
        }
        match text_of(word) {
            Ok(text) if Choice::of(text) == Some(choice) => left = left.saturating_sub(1),
            _ => {}
        }
    }
    left == 0
}

// A word that is not taken, or the value of an option.
fn wrong<'a>(option: Option<&'static str>, word: Option<&'a str>, why: Why) -> Misread<'a> {
    Misread::of(Command::Publish, option, word, why)
}

// A word of this form, which is called so.
fn read_form<'a>(
    alloc: Global,
    called: Option<&'static str>,
    form: Form,
    word: &'a str,
) -> Result<(), Misread<'a>> {
    if form.is_missed(alloc, word) {
        return Err(wrong(called, Some(word), Why::IsNo(form)));
    }
    Ok(())
}

// A mark.
fn read_mark<'a>(alloc: Global, word: &'a str) -> Result<(), Misread<'a>> {
    if let Some(file) = data_mark(word) {
        return read_form(alloc, Some("data:"), Form::File, file);
    }
    if let Some((group, file)) = group_mark(word) {
        read_form(alloc, Some("group:"), Form::Group, group)?;
        return read_form(alloc, Some("group:"), Form::File, file);
    }
    read_form(alloc, None, Form::Mark, word)
}

// The value of an option. Each name is taken where a publisher is given; else it is the publisher
// too.
fn read_value<'a>(
    alloc: Global,
    words: &'a [Word],
    choice: Choice,
    form: Form,
    value: &'a str,
) -> Result<(), Misread<'a>> {
    if choice == Choice::Name && stands(words, Choice::Publisher, 1) {
        return Ok(());
    }
    read_form(alloc, Some(choice.name()), form, value)
}

// A word that begins as an option does.
fn read_option<'a>(alloc: Global, words: &'a [Word], word: &'a str) -> Result<Next, Misread<'a>> {
    let Some(choice) = Choice::of(word) else {
        let why = Why::Words("is no option; see clickstore --help publish");
        return Err(wrong(None, Some(word), why));
    };
    let name = Some(choice.name());
    if stands(words, choice, 2) {
        return Err(wrong(name, None, Why::Words("stands twice")));
    }
    let value = word.split_once('=');
    match (choice.form(), value) {
        (Some(form), Some((_, value))) => {
            read_value(alloc, words, choice, form, value)?;
            Ok(Next::Any)
        }
        (Some(form), None) => Ok(Next::Value(choice, form)),
        (None, Some((_, value))) => {
            let why = Why::Words("is not taken, since it has no value");
            Err(wrong(name, Some(value), why))
        }
        (None, None) => Ok(Next::Any),
    }
}

// The word behind an option that has a value.
fn read_behind<'a>(
    alloc: Global,
    words: &'a [Word],
    choice: Choice,
    form: Form,
    word: &'a str,
) -> Result<Next, Misread<'a>> {
    let name = Some(choice.name());
    if word == "--" || Choice::of(word).is_some() {
        return Err(wrong(name, None, Why::NoValue(form)));
    }
    if is_dashed(word) {
        let why = Why::Words("begins with '-': such a value stands behind '=', as --publisher=-A");
        return Err(wrong(name, Some(word), why));
    }
    read_value(alloc, words, choice, form, word)?;
    Ok(Next::Any)
}

// Reads a word, and answers what the next one is.
fn read_next<'a>(
    alloc: Global,
    words: &'a [Word],
    next: Next,
    word: &'a str,
) -> Result<Next, Misread<'a>> {
    match next {
        Next::Value(choice, form) => read_behind(alloc, words, choice, form, word),
        Next::Any if word == "--" => Ok(Next::Mark),
        Next::Any if is_dashed(word) => read_option(alloc, words, word),
        Next::Any | Next::Mark => {
            read_mark(alloc, word)?;
            Ok(next)
        }
    }
}

// The end of the words.
fn read_end<'a>(words: &'a [Word], next: Next) -> Result<(), Misread<'a>> {
    if let Next::Value(choice, form) = next {
        return Err(wrong(Some(choice.name()), None, Why::NoValue(form)));
    }
    for choice in CHOICES {
        match choice.form() {
            Some(form) if choice.is_needed() && !stands(words, choice, 1) => {
                return Err(wrong(Some(choice.name()), None, Why::IsMissing(form)));
            }
            _ => {}
        }
    }
    Ok(())
}

// The words behind `publish`. An error has the first word that is surely not taken.
pub(crate) fn read_publish<'a>(alloc: Global, words: &'a [Word]) -> Result<(), Misread<'a>> {
    let mut next = Next::Any;
    for word in words {
        next = read_next(alloc, words, next, text_of(word)?)?;
    }
    read_end(words, next)
}
