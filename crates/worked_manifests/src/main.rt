//! What manifests and their parts are read as. Each line of the input is a row, or names a text that rows stand for by
//! `{NAME}`. What it prints is compared with what it must print.
#![tactic(auto)]

mod manifest_rows;
mod part_rows;
mod texts;

use manifest_rows::{application, count, deployment};
use part_rows::part;
use std::io;
use texts::{Texts, first_of};

// Prints what a row says: of an `application` or a `deployment` manifest, of the `count` of the files of
// an application, or of a part, where a word stands before the text.
fn print_row(rt: &HostRuntime, texts: &Texts, line: &str) -> io::Result<()> {
    let (row, rest) = first_of(line);
    let rest = texts.filled(rt.alloc(), rest)?;
    if row == "application" {
        return application(rt, rest.as_str());
    }
    if row == "deployment" {
        return deployment(rt, rest.as_str());
    }
    if row == "count" {
        return count(rt, rest.as_str());
    }
    let (word, text) = first_of(rest.as_str());
    part(rt, row, word, text)
}

// Does what a line says: `#` prints it, `let` names a text, and `times` one of so many; any other is a
// row.
fn act(rt: &HostRuntime, texts: &mut Texts, line: &str) -> io::Result<()> {
    match line.split_once(' ') {
        Some(("#", _)) => rt.println(line),
        Some(("let", rest)) => texts.set(rt.alloc(), rest),
        Some(("times", rest)) => texts.set_times(rt.alloc(), rest),
        _ => print_row(rt, texts, line),
    }
}

fn act_all(rt: &HostRuntime, texts: &mut Texts) -> io::Result<()> {
    for line in rt.lines(rt.alloc()) {
        let line = line?;
        act(rt, texts, line.as_str())?;
    }
    Ok(())
}

fn main(rt: HostRuntime) -> io::Result<()> {
    let mut texts = Texts::new(rt.alloc())?;
    let done = act_all(&rt, &mut texts);
    drop(texts);
    done
}
