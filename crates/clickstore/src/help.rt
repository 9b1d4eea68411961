// What the program says of itself. `checks/help` makes the manual page and the completions of it.
use crate::commands::Command;
use outside::{Failed, Sink, write_all};

// A text that the program prints of itself.
#[derive(Clone, Copy)]
pub(crate) enum Page {
    Whole,
    // What concerns this command.
    Of(Command),
    Version,
}

const USAGE: &[u8] = b"usage: clickstore STORE FOLDER COMMAND WORD..
       clickstore --help [COMMAND]
       clickstore --version

";

const ABOUT: &[u8] =
    b"Installs releases into a store, updates them and goes back; publishes releases.

STORE is the file of the store, and FOLDER a folder of published files. What a
URL names is asked of FOLDER first. What FOLDER does not give as it is wanted is
asked of the URL's host over HTTP.

Commands:
";

const FORMAT: &[u8] =
    b"  format --blocks N            makes STORE an empty store of N blocks of 4096
                               bytes, 1 to 1048576; what the file held is lost
  format --blocks N --half H   the same; each half of its journal has H bytes,
                               1048576 to 67108864 in steps of 4096, in place
                               of 16777216
";

const SESSION: &[u8] = b"  session --boot N --now N     answers the lines of the standard input
";

const INSPECT: &[u8] =
    b"  inspect deployment           says what the deployment manifest in the standard
                               input says, or why it is refused
  inspect application          says the same of an application manifest
";

const DEMO: &[u8] = b"  demo SEED                    makes STORE anew, what it held being lost, and
                               installs three generated releases there; SEED is
                               a number, which makes their files
";

const PUBLISH: &[u8] =
    b"  publish OPTION.. MARK..      publishes files of FOLDER as a release; options
                               and marks stand in any order, and the first five
                               options have to be there
    --name N                   what is published
    --release V                its version: four numbers, as 1.0.0.0
    --entry E                  the file that is started, directly below F
    --from F                   the files below F are published
    --to T                     the release is written below T
    --publisher P              who publishes it; N where it is left out
    --minimum V                no version below V may run any more
    --check C                  when a client checks for updates: none, before
                               (each start), or once so many hours, days or
                               weeks have passed, as 12h, 7d or 2w; none where
                               it is left out
    --provider U               updates come from the address U
    --plain                    files are written without .deploy
    data:FILE                  FILE is a data file, which each version has for
                               itself
    group:GROUP:FILE           FILE is only fetched once GROUP is asked for
";

const LINES: &[u8] = b"
Lines of a session:
  at N                         the moment of the lines behind it is N
  require KEY V                no version below V may run any more
  install URL                  installs or updates to the release whose
                               deployment manifest is at URL
  check KEY                    asks whether there is a newer version
  skip KEY                     the newer version is not wanted
  rollback KEY                 the version before the last install is current
                               again
  launch KEY                   gives a lease on the current version
  read L NAME FROM COUNT       says COUNT bytes of a program file, from FROM on
  data L NAME FROM COUNT       says the same of a data file
  put L NAME HEX               a data file has these bytes from now on
  remove L NAME                a data file is gone
  group L GROUP                fetches the optional files of GROUP
  finish L                     ends the lease
  clean                        takes out the versions that are not in use
  list                         says which applications there are
  show KEY                     says what is known of one
";

const WORDS: &[u8] = b"
Words of a session:
  --boot N                     a number that changes with each start of the
                               machine and never otherwise; another one than the
                               store has ends all leases
  --now N                      the moment of the first line, in seconds
  KEY                          an application, as answers name it: its name,
                               token, language and architecture, joined by ','
  V                            a version: four numbers of at most 65535, as
                               1.0.0.0
  L                            the number of a lease, as launch answers it

On Linux these are such numbers:

  --boot $((0x$(tr -d - < /proc/sys/kernel/random/boot_id | head -c 15)))
  --now $(date +%s)
";

const STATUS: &[u8] = b"
Exit status:
  0                            done
  1                            the words are none of these
  2                            the input failed, or FOLDER where publish reads
  3                            the output failed, or FOLDER where publish writes
  4                            STORE failed, or another program holds it
  5                            STORE holds no store, or a damaged one
  6                            there was no memory, or a demo came out wrong
  7                            a manifest or a publish is refused
  8                            there is more input than a session takes

Where the status is neither 0 nor 7, one line on the standard error says why.
";

const VERSION: &[u8] = b"clickstore 0.1.0
stores: the second form, CLKSTOR1
";

// Whether an option asks for a page.
fn asks_for_help(word: &str) -> bool {
    word == "--help" || word == "-h"
}

// Whether the first of all words asks for a page.
pub(crate) fn begins_help(word: &str) -> bool {
    asks_for_help(word) || word == "help"
}

// The page of this command, where there is one.
fn page_of_command(name: &str) -> Option<Page> {
    Some(Page::Of(Command::of(name)?))
}

// The page that two words ask for, where they ask for one.
fn page_of_two(first: &str, second: &str) -> Option<Page> {
    if begins_help(first) {
        return page_of_command(second);
    }
    if asks_for_help(second) {
        return Some(page_of_command(first).unwrap_or(Page::Whole));
    }
    None
}

// The page that the words of the program ask for. None of these words ask for anything else: behind
// a store and a folder no command is called so, and none takes such a word alone.
pub(crate) fn page_of(words: &[String]) -> Option<Page> {
    match words {
        [only] if only.as_str() == "--version" => Some(Page::Version),
        [only] if begins_help(only.as_str()) => Some(Page::Whole),
        [first, second] => page_of_two(first.as_str(), second.as_str()),
        [_, _, last] if asks_for_help(last.as_str()) => Some(Page::Whole),
        [first, name, _] if begins_help(first.as_str()) => page_of_command(name.as_str()),
        [_, _, name, last] if asks_for_help(last.as_str()) => page_of_command(name.as_str()),
        _ => None,
    }
}

// Writes the parts of a text, one after another.
fn write_parts<K: Sink>(sink: &mut K, parts: &[&[u8]]) -> Result<(), Failed> {
    for part in parts {
        write_all(sink, part)?;
    }
    Ok(())
}

// Writes the page.
pub(crate) fn write_page<K: Sink>(sink: &mut K, page: Page) -> Result<(), Failed> {
    match page {
        Page::Whole => write_parts(
            sink,
            &[
                USAGE, ABOUT, FORMAT, SESSION, INSPECT, DEMO, PUBLISH, LINES, WORDS, STATUS,
            ],
        ),
        Page::Of(Command::Format) => write_parts(sink, &[USAGE, FORMAT, STATUS]),
        Page::Of(Command::Session) => write_parts(sink, &[USAGE, SESSION, LINES, WORDS, STATUS]),
        Page::Of(Command::Inspect) => write_parts(sink, &[USAGE, INSPECT, STATUS]),
        Page::Of(Command::Demo) => write_parts(sink, &[USAGE, DEMO, STATUS]),
        Page::Of(Command::Publish) => write_parts(sink, &[USAGE, PUBLISH, STATUS]),
        Page::Version => write_all(sink, VERSION),
    }
}
