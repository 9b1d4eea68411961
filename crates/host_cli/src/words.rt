// The words of the command line.
ghost use Rattle.std.specs.Prelude.{◌≡◌};
ghost use Rattle.small_types.specs.Decimal.{at_most, decimal_of};
ghost use Rattle.host_cli.specs.declared.words.TheConstants.{CONNECTION_LIMIT};
ghost use Rattle.host_cli.specs.Words.{port_of, count_of};

use small_types::{Word, read_decimal};

/// The most connections of a run.
pub const CONNECTION_LIMIT: u64 = 1_000_000;

/// The least port of a host.
pub const PORT_LEAST: u64 = 1;

/// The greatest port of a host.
pub const PORT_LIMIT: u64 = 65_535;

/// The port that a word gives: 1 to 65,535, in 1 to 19 decimal digits. `None` comes exactly at any other word.
pub fn read_port(word: &[u8]) -> Option<u16>
    ensures { result ≡ port_of word.now }
{
    let port = read_decimal(word)?;
    if port < PORT_LEAST || port > PORT_LIMIT {
        return None;
    }
    Some(port as u16)
}

// The number of connections that a word gives.
fn read_count(word: &[u8]) -> Option<u64>
    ensures { result ≡ at_most CONNECTION_LIMIT (decimal_of word.now) }
{
    let count = read_decimal(word)?;
    if count > CONNECTION_LIMIT {
        return None;
    }
    Some(count)
}

// How many connections a run has: the words are a port and a number of at most 1,000,000.
pub(crate) fn read_words(words: &[Word]) -> Option<u64>
    ensures { result ≡ count_of words.now }
{
    if words.len() != 2 {
        return None;
    }
    read_port(words[0].as_slice())?;
    read_count(words[1].as_slice())
}
