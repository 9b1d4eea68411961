// The lines of a script.
use crate::client::Client;
use crate::next::{first_of, numbered};
use crate::{releases, site};
use std::io::{self, ErrorKind};

// Does what the line says of the site. Its first word says what: `site` empties it, `file` puts a
// file there, `line` adds a line to one, `fill` puts one of so many bytes and `build` one of repeated
// text, `lose` takes one away, `terms` gives a published deployment others, and `down` lets the call
// of that number fail, counted from now on.
fn change_site(rt: &HostRuntime, client: &mut Client, word: &str, rest: &str) -> io::Result<()> {
    if word == "site" {
        return client.empty_site(rt);
    }
    if word == "file" {
        return site::put_text(rt, client.folder(), rest);
    }
    if word == "line" {
        return site::add_line(rt, client.folder(), rest);
    }
    if word == "fill" {
        return site::put_zeros(rt, client.folder(), rest);
    }
    if word == "build" {
        return site::put_repeated(rt, client.folder(), rest);
    }
    if word == "lose" {
        return client.lose(rt, rest);
    }
    if word == "terms" {
        return site::set_terms(rt, client.folder(), rest);
    }
    if word == "down" {
        return client.fail(rt, rest);
    }
    Err(ErrorKind::InvalidInput.into())
}

// Adds what the line says to the next session. Its first word says what: `>` and `times` add lines,
// `zeros` one that ends in zero bytes, and `last`, `repeat` and `return` a text, a text so many
// times and a carriage return, without a line feed. `look` adds a line of the sessions that look at
// what it left.
fn add_text(rt: &HostRuntime, client: &mut Client, word: &str, rest: &str) -> io::Result<()> {
    if word == ">" {
        return client.next.add(rest);
    }
    if word == "times" {
        return client.next.add_times(rest);
    }
    if word == "zeros" {
        return client.next.add_zeros(rest);
    }
    if word == "last" {
        return client.next.add_last(rest);
    }
    if word == "repeat" {
        return client.next.add_repeated(rest);
    }
    if word == "return" {
        return client.next.add_last("\r");
    }
    if word == "look" {
        return client.next.add_look(rest);
    }
    change_site(rt, client, word, rest)
}

// Sets what the line says for the next run. Its first word says what: `as` what stands before its
// status, `source` and `sink` which of their calls fails, `mark` marks a file of what is published,
// `swap` has another text in place of one of what is inspected and `byte` puts a byte before it, and
// `statuses` has each status told from here on.
fn set(rt: &HostRuntime, client: &mut Client, word: &str, rest: &str) -> io::Result<()> {
    if word == "as" {
        client.next.name(rt.alloc(), rest)?;
        return Ok(());
    }
    if word == "source" {
        return client.next.fail_source(rest);
    }
    if word == "sink" {
        return client.next.fail_sink(rest);
    }
    if word == "mark" {
        return client.next.mark(rt.alloc(), rest);
    }
    if word == "swap" {
        return client.next.swap(rt.alloc(), rest);
    }
    if word == "byte" {
        return client.next.put_byte(rest);
    }
    if word == "statuses" {
        client.next.always = true;
        return Ok(());
    }
    add_text(rt, client, word, rest)
}

// Does what the line says of the disk. Its first word says what: `stops` stops the last session at
// each of its moments, `stop` after that call of it, and the next one runs over what is left;
// `moments` runs a session and tells which of its lines a stop at each of its moments leaves, and
// `faults` which of them it leaves where a call of its source, its sink or its disk fails;
// `left` goes on with what a stop leaves, `aside` does so until `back`; `disk` goes on with zeros,
// `failing` with the same bytes and a call that fails, or none where it is 0: a stop makes no call
// from before it anew; `half` has the halves of the stores that `format` makes from here on that many
// bytes long; and `calls` prints how many calls there were.
fn change_disk(rt: &HostRuntime, client: &mut Client, word: &str, rest: &str) -> io::Result<()> {
    if word == "stops" {
        return client.stops(rt, rest);
    }
    if word == "stop" {
        return client.stop_once(rt, rest);
    }
    if word == "moments" {
        return client.stop_each_moment(rt, rest);
    }
    if word == "faults" {
        return client.fail_each(rt, rest);
    }
    if word == "left" {
        return client.go_on(rt, rest);
    }
    if word == "aside" {
        return client.go_aside(rt, rest);
    }
    if word == "back" {
        return client.come_back();
    }
    if word == "disk" {
        return client.zero_disk(rt, rest);
    }
    if word == "failing" {
        return client.fail_disk(rt, rest);
    }
    if word == "half" {
        return client.set_half(rest);
    }
    if word == "calls" {
        return client.print_count(rt, rest);
    }
    set(rt, client, word, rest)
}

// Does what the line says of a release. Its first word says what: `inspect` a manifest, `changing`
// publishes files that change, and `files` and `count` print the files of the site, and their number.
fn release(rt: &HostRuntime, client: &mut Client, word: &str, rest: &str) -> io::Result<()> {
    if word == "inspect" {
        return client.inspect(rt, rest);
    }
    if word == "changing" {
        return releases::publish_changing(rt, &mut client.next, rest);
    }
    if word == "files" {
        return site::print_files(rt, client.folder());
    }
    if word == "count" {
        return site::print_count(rt, client.folder());
    }
    change_disk(rt, client, word, rest)
}

// Does what the line says. Its first word says what, and is a word of the program or one of these:
// `#` prints the line and `say` the rest of it, `part` begins anew with a client, `row` runs what
// follows and prints it with its status, `quiet` runs a session and prints nothing, and `asked`
// prints what the last session asked for.
fn act(rt: &HostRuntime, client: &mut Client, line: &str) -> io::Result<()> {
    let (word, rest) = first_of(line);
    if word == "#" {
        return rt.println(line);
    }
    if word == "say" {
        return rt.println(rest);
    }
    if word == "part" {
        *client = Client::new(rt);
        return rt.println(line);
    }
    if word == "format" {
        return client.format(rt, line);
    }
    if word == "publish" {
        return client.publish(rt, line);
    }
    if word == "session" {
        return client.session(rt, line);
    }
    if word == "row" {
        return client.row(rt, rest);
    }
    if word == "quiet" {
        return client.quiet_session(rt, rest);
    }
    if word == "asked" {
        return client.print_asked(rt);
    }
    release(rt, client, word, rest)
}

// Does what the line says for each number from one to another, which is not among them: both, and
// the line, in which each `%` stands for the number.
fn act_each(rt: &HostRuntime, client: &mut Client, words: &str) -> io::Result<()> {
    let (from, rest) = numbered(words)?;
    let (to, line) = numbered(rest)?;
    for number in from..to {
        let filled = site::filled(rt.alloc(), line, number)?;
        act(rt, client, filled.as_str())?;
    }
    Ok(())
}

// Does what the line says, once, or for each of some numbers.
fn act_all(rt: &HostRuntime, client: &mut Client, line: &str) -> io::Result<()> {
    match line.split_once(' ') {
        Some(("each", rest)) => act_each(rt, client, rest),
        _ => act(rt, client, line),
    }
}

fn play_lines(rt: &HostRuntime, client: &mut Client) -> io::Result<()> {
    for line in rt.lines(rt.alloc()) {
        let line = line?;
        act_all(rt, client, line.as_str())?;
    }
    Ok(())
}

/// Does what the lines of the standard input say, one after another, with one client in memory, whose
/// site is a folder in memory.
pub fn play(rt: &HostRuntime) -> io::Result<()> {
    let mut client = Client::new(rt);
    let played = play_lines(rt, &mut client);
    drop(client);
    played
}
