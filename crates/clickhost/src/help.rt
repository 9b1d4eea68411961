// What the program says of itself. `checks/help` makes the manual page and the completions of it.

pub(crate) const HELP: &[u8] = b"usage: clickhost FOLDER PORT COUNT
       clickhost --help
       clickhost --version

Serves the files of a folder over plain HTTP.

One request is answered on each of COUNT connections, one after the other. At
the start one line on the standard error says what is served where, and another
one comes where FOLDER is not there.

A client has 10 seconds for its request, and then 10 for its answer and one
more for each 65536 bytes of it. After that its connection ends, and the next
one is served.

Words:
  FOLDER                       the folder, which is read anew for each request
  PORT                         1 to 65535, of all IPv4 addresses
  COUNT                        0 to 1000000; with 0 nothing is served

Exit status:
  0                            done
  1                            the words are none of these
  2                            a connection could not be accepted, as where
                               another program has the port
  3                            the output failed
  6                            there was no memory

Where the status is not 0, one line on the standard error says why.
";

pub(crate) const VERSION: &[u8] = b"clickhost 0.1.0\n";

// Whether the word, alone, asks for the help.
pub(crate) fn asks_for_help(word: &str) -> bool {
    word == "--help" || word == "-h" || word == "help"
}
