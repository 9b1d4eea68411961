//! What words of `publish` are read as. Each line of the input has the words of one call, with a
//! space between them; a `+` stands for a space within a word. What it prints is compared with what
//! it must print.
#![tactic(auto)]

use manifests::Rule;
use publication::{WordFault, read_options};
use publish_plan::{Mark, MarkKind, Options};
use small_types::Word;
use std::alloc::Global;
use std::io::{self, ErrorKind};

// The bytes of a word, as the input writes it.
fn word_of(alloc: Global, text: &str) -> io::Result<Word> {
    let mut bytes = Vec::new(alloc);
    for byte in text.as_bytes() {
        bytes.push(if *byte == b'+' { b' ' } else { *byte })?;
    }
    Ok(Word::from_vec(bytes))
}

fn words_of(alloc: Global, line: &str) -> io::Result<Vec<Word>> {
    let mut words = Vec::new(alloc);
    for text in line.split(' ') {
        words.push(word_of(alloc, text)?)?;
    }
    Ok(words)
}

fn print_name(rt: &HostRuntime, what: &str, bytes: &[u8]) -> io::Result<()> {
    match str::from_utf8(bytes) {
        Ok(text) => println!(rt; "  {what} {text:?}"),
        Err(_) => Err(ErrorKind::InvalidData.into()),
    }
}

fn print_rule(rt: &HostRuntime, rule: Rule) -> io::Result<()> {
    match rule {
        Rule::Never => rt.println("  check never"),
        Rule::Before => rt.println("  check before each start"),
        Rule::Age { seconds } => println!(rt; "  check after {seconds} seconds"),
    }
}

fn print_mark(rt: &HostRuntime, mark: &Mark) -> io::Result<()> {
    match &mark.kind {
        MarkKind::Local => rt.println("  a data file:")?,
        MarkKind::Group(group) => print_name(rt, "of the group", group.as_bytes())?,
    }
    print_name(rt, "file", mark.file.as_bytes())
}

// What may be left out.
fn print_others(rt: &HostRuntime, options: &Options) -> io::Result<()> {
    if let Some(minimum) = &options.minimum {
        let minimum = minimum
            .print(rt.alloc())
            .map_err(|_| ErrorKind::OutOfMemory)?;
        print_name(rt, "minimum", minimum.as_bytes())?;
    }
    print_rule(rt, options.rule)?;
    if let Some(provider) = &options.provider {
        print_name(rt, "provider", provider.as_bytes())?;
    }
    if !options.mapped {
        rt.println("  plain")?;
    }
    for mark in options.marks.as_slice() {
        print_mark(rt, mark)?;
    }
    Ok(())
}

fn print_options(rt: &HostRuntime, options: &Options) -> io::Result<()> {
    let version = options
        .version
        .print(rt.alloc())
        .map_err(|_| ErrorKind::OutOfMemory)?;
    print_name(rt, "name", options.name.as_bytes())?;
    print_name(rt, "version", version.as_bytes())?;
    print_name(rt, "entry", options.entry.as_bytes())?;
    print_name(rt, "from", options.from.as_bytes())?;
    print_name(rt, "to", options.to.as_bytes())?;
    print_name(rt, "publisher", options.publisher.as_bytes())?;
    print_others(rt, options)
}

// Reads the words, and prints what they ask for.
fn read(rt: &HostRuntime, words: &[Word]) -> io::Result<()> {
    match read_options(rt.alloc(), words) {
        Ok(options) => print_options(rt, &options),
        Err(WordFault::Unreadable) => rt.println("  unreadable"),
        Err(WordFault::Memory) => rt.println("  no memory"),
    }
}

// A word that is no text, behind words that are read.
fn read_no_text(rt: &HostRuntime, line: &str) -> io::Result<()> {
    rt.println("a mark that is no text")?;
    let mut words = words_of(rt.alloc(), line)?;
    let mut bytes = Vec::new(rt.alloc());
    for byte in b"data:\xff" {
        bytes.push(*byte)?;
    }
    words.push(Word::from_vec(bytes))?;
    read(rt, words.as_slice())
}

fn main(rt: HostRuntime) -> io::Result<()> {
    for line in rt.lines(rt.alloc()) {
        let line = line?;
        println!(rt; "{line}")?;
        read(&rt, words_of(rt.alloc(), line.as_str())?.as_slice())?;
    }
    rt.println("no word")?;
    read(&rt, &[])?;
    read_no_text(
        &rt,
        "--name demo --release 1.0.0.0 --entry app.exe --from in --to one",
    )
}
