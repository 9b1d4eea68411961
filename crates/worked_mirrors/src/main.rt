//! Installs by the top call over several links, over devices in memory. Which links there are and what is asked of them
//! stands in its input, a line for each thing. What it prints is compared with what it must print.
#![tactic(auto)]

mod noted;
mod runs;
mod sites;
mod texts;

use runs::play;
use std::alloc::Global;
use std::io::{self, ErrorKind};
use texts::Texts;

/// What the input said so far.
#[derive(Drop)]
struct Script {
    texts: Texts,
    /// The links of the next session, a line for each.
    links: String,
    /// The lines of that session.
    lines: String,
}

fn add_line(lines: &mut String, line: &str) -> io::Result<()> {
    lines.push_str(line)?;
    lines.push('\n')?;
    Ok(())
}

impl Script {
    fn new(alloc: Global) -> Script {
        Script {
            texts: Texts::new(alloc),
            links: String::new(alloc),
            lines: String::new(alloc),
        }
    }

    // Runs the session over a new store and the links, which are then gone.
    fn run(&mut self, rt: &HostRuntime) -> io::Result<()> {
        play(rt, &self.texts, self.links.as_str(), self.lines.as_str())?;
        self.links.clear();
        self.lines.clear();
        Ok(())
    }

    // Does what the line says. Its first word says what: `#` prints the line, `text` keeps a text, `memory` and `http`
    // add a link, `>` adds a line to the session, and `run` runs it.
    fn act(&mut self, rt: &HostRuntime, line: &str) -> io::Result<()> {
        let (word, rest) = line.split_once(' ').unwrap_or((line, ""));
        if word == "#" {
            return rt.println(line);
        }
        if word == "text" {
            return self.texts.keep(rt.alloc(), rest);
        }
        if word == ">" {
            return add_line(&mut self.lines, rest);
        }
        if word == "run" {
            return self.run(rt);
        }
        if word == "memory" || word == "http" {
            return add_line(&mut self.links, line);
        }
        Err(ErrorKind::InvalidInput.into())
    }
}

fn act_all(rt: &HostRuntime, script: &mut Script) -> io::Result<()> {
    for line in rt.lines(rt.alloc()) {
        let line = line?;
        script.act(rt, line.as_str())?;
    }
    Ok(())
}

fn main(rt: HostRuntime) -> io::Result<()> {
    let mut script = Script::new(rt.alloc());
    let acted = act_all(&rt, &mut script);
    drop(script);
    acted
}
