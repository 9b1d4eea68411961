// The generated files.
ghost use Rattle.std.specs.Prelude.{◌≡◌, ◌+◌, ◌<◌, IfOk, string_bytes};
ghost use Rattle.small_types.specs.Name.{IsName};
ghost use Rattle.generated_release.specs.Files as spec;

use folders::Held;
use small_types::{Bytes, List, Name, NameFault};
use std::alloc::{AllocError, Global};

/// How many files each version has.
pub const FILE_COUNT: u64 = 200;

/// How many they are.
pub fn file_count_is()
    ensures { FILE_COUNT ≡ 200 }
{}

/// The name that these bytes are.
pub(crate) fn name_of(alloc: Global, bytes: &[u8]) -> Result<Name, AllocError>
    requires { IsName bytes.now }
    ensures { IfOk result (λ name. name ≡ bytes.now) }
{
    match Name::read(alloc, bytes) {
        Ok(name) => Ok(name),
        Err(NameFault::Memory) => Err(AllocError),
        Err(NameFault::Bad) => unreachable!(),
    }
}

// The digit of a number below 10.
fn digit(number: u64) -> u8
    requires { number < 10 }
    ensures { result ≡ 48 + number }
{
    b'0' + number as u8
}

// Which change of the file the version has.
fn change_in(version: u16, file: u64) -> u64
    ensures { result ≡ spec.change_in version file }
{
    if version >= 2 && file % 10 == 2 {
        return 2;
    }
    if version >= 3 && file % 10 == 3 {
        return 3;
    }
    1
}

// The line of the file, with its line feed.
fn line_of(alloc: Global, seed: u64, file: u64, change: u64) -> Result<String, AllocError>
    ensures { IfOk result (λ line. string_bytes line ≡ spec.line_text seed file change) }
{
    format!(in alloc; "demo {seed} file {file} change {change}\n")
}

// The bytes so many times, one after another.
#[tactic(auto, using(crate::proofs::Repeats::times_none, crate::proofs::Repeats::times_more))]
fn repeated(alloc: Global, count: u64, bytes: &[u8]) -> Result<Vec<u8>, AllocError>
    ensures { IfOk result (λ made. made.items ≡ spec.times count bytes.now) }
{
    let mut made = Vec::new(alloc);
    for turn in 0..count {
        made.extend_from_slice(bytes)?;
    }
    Ok(made)
}

/// The bytes of the file in the version.
#[tactic(auto, unfolding(crate::specs::Files::file_bytes))]
pub fn file_bytes(alloc: Global, seed: u64, version: u16, file: u64) -> Result<Bytes, AllocError>
    ensures { IfOk result (λ bytes. bytes ≡ spec.file_bytes seed version file) }
{
    let line = line_of(alloc, seed, file, change_in(version, file))?;
    let bytes = repeated(alloc, 1 + 20 * (file % 20), line.as_bytes())?;
    Ok(Bytes::from_vec(bytes))
}

/// The name of the file: its number has three digits.
pub fn file_name(file: u64) -> [u8; 8]
    requires { file < 1000 }
    ensures { result ≡ spec.file_name file }
{
    [
        b'f',
        digit(file / 100),
        digit(file / 10 % 10),
        digit(file % 10),
        b'.',
        b't',
        b'x',
        b't',
    ]
}

// The file of the version, below the folder `in`.
fn input_file(alloc: Global, seed: u64, version: u16, file: u64) -> Result<Held, AllocError>
    requires { file < 1000 }
    ensures { IfOk result (λ held. held ≡ spec.input_file seed version file) }
{
    let mut name = Vec::from_slice(alloc, b"in/")?;
    name.extend_from_slice(&file_name(file))?;
    Ok(Held {
        name: name_of(alloc, &name)?,
        bytes: file_bytes(alloc, seed, version, file)?,
    })
}

/// The files of the version, below the folder `in`.
#[tactic(auto, using(crate::proofs::Repeats::files_none, crate::proofs::Repeats::files_more))]
pub(crate) fn input_files(alloc: Global, seed: u64, version: u16) -> Result<List<Held>, AllocError>
    ensures { IfOk result (λ files. files ≡ spec.input_files seed version) }
{
    let mut files = Vec::new(alloc);
    for file in 0..FILE_COUNT {
        files.push(input_file(alloc, seed, version, file)?)?;
    }
    Ok(List::from_vec(files))
}
