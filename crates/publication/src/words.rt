// The words behind `publish`.
ghost use Rattle.std.specs.Prelude.{◌≡◌, ◌⊎◌, [], true, false, None, Some, Err, map, option_map, All, IfOk, IfErr, IfSome, codes};
ghost use Rattle.std.specs.Str.{is_utf8};
ghost use Rattle.manifests.specs.Facts.{IsProvider, IsRule, IsValue};
ghost use Rattle.publish_plan.specs.declared.options.Mark.{Mark};
ghost use Rattle.publisher.specs.Options.{IsKind, IsPublishable};
ghost use Rattle.small_types.specs.declared.limits.TheConstants.{NAME_LIMIT};
ghost use Rattle.clap.specs.Words.{first_of};
ghost use Rattle.publication.specs.Command.{Takes, faults, rows_in};
ghost use Rattle.publication.specs.Words as spec;
ghost use Rattle.publication.specs.Words.{file_in, is_plain_in, marks_in, minimum_in, options_in, options_of, provider_in, publisher_in, release_in, rule_in};
ghost use Rattle.publication.specs.declared.values.WordFault.TheVariants.{Memory, Unreadable};

use crate::command::{
    CHECK, ENTRY, FROM, MARKS, MINIMUM, NAME, PLAIN, PROVIDER, PUBLISHER, RELEASE, TO, match_words,
};
use crate::marks::read_marks;
use crate::values::{
    WordFault, read_check, read_file, read_provider, read_publisher, read_release, text,
};
use clap::ArgMatches;
use identity::Version;
use manifests::Rule;
use publish_plan::{Mark, Options};
use small_types::{List, Name, Text, Word};
use std::alloc::Global;

// What the words give for an option.
#[tactic(auto, using(crate::proofs::Rows::first_given))]
fn given<'a>(matches: &ArgMatches<'a>, option: &str) -> Option<&'a str>
    ensures { option_map (λ s. s.now) result ≡ first_of option.now (rows_in matches.now) }
{
    matches.get_str(option)
}

// The same for an option that has to be there.
fn needed<'a>(matches: &ArgMatches<'a>, option: &str) -> Result<&'a str, WordFault>
    ensures value { IfOk result (λ s. first_of option.now (rows_in matches.now) ≡ Some s.now) }
    ensures none { IfErr result (λ e. first_of option.now (rows_in matches.now) ≡ None) }
    ensures fault { IfErr result (λ e. e ≡ Unreadable) }
{
    match given(matches, option) {
        Some(word) => Ok(word),
        None => Err(WordFault::Unreadable),
    }
}

// A file name.
fn file_in(alloc: Global, matches: &ArgMatches<'_>, option: &str) -> Result<Name, WordFault>
    ensures value { IfOk result (λ n. file_in (rows_in matches.now) option.now ≡ Some n) }
    ensures none { IfErr result (λ e. e ≡ Unreadable
        → file_in (rows_in matches.now) option.now ≡ None) }
{
    let word = needed(matches, option)?;
    read_file(alloc, word.as_bytes())
}

// The name.
fn name_in(alloc: Global, matches: &ArgMatches<'_>) -> Result<Text, WordFault>
    ensures value { IfOk result (λ t. first_of (codes "name") (rows_in matches.now) ≡ Some t) }
    ensures none { IfErr result (λ e. e ≡ Unreadable
        → first_of (codes "name") (rows_in matches.now) ≡ None) }
{
    let word = needed(matches, NAME)?;
    Ok(Text::from_string(String::from_str(alloc, word)?))
}

// The version.
fn release_in(matches: &ArgMatches<'_>) -> Result<Version, WordFault>
    ensures value { IfOk result (λ v. release_in (rows_in matches.now) ≡ Some v) }
    ensures none { IfErr result (λ e. release_in (rows_in matches.now) ≡ None) }
    ensures fault { IfErr result (λ e. e ≡ Unreadable) }
{
    let word = needed(matches, RELEASE)?;
    read_release(word.as_bytes())
}

// The publisher, which is the name where none is given.
fn publisher_in(alloc: Global, matches: &ArgMatches<'_>, name: &Text) -> Result<Text, WordFault>
    ensures value { IfOk result (λ t. publisher_in (rows_in matches.now) name.now ≡ Some t) }
    ensures fit { IfOk result (IsValue 0 NAME_LIMIT) }
    ensures none { IfErr result (λ e. e ≡ Unreadable
        → publisher_in (rows_in matches.now) name.now ≡ None) }
{
    match given(matches, PUBLISHER) {
        Some(word) => read_publisher(alloc, word),
        None => read_publisher(alloc, name.as_str()),
    }
}

// The least version that may run, where one is given.
fn minimum_in(matches: &ArgMatches<'_>) -> Result<Option<Version>, WordFault>
    ensures value { IfOk result (λ m. minimum_in (rows_in matches.now) ≡ Some m) }
    ensures none { IfErr result (λ e. minimum_in (rows_in matches.now) ≡ None) }
    ensures fault { IfErr result (λ e. e ≡ Unreadable) }
{
    match given(matches, MINIMUM) {
        Some(word) => match read_release(word.as_bytes()) {
            Ok(version) => Ok(Some(version)),
            Err(fault) => Err(fault),
        },
        None => Ok(None),
    }
}

// When a client looks for a new version.
fn rule_in(matches: &ArgMatches<'_>) -> Result<Rule, WordFault>
    ensures value { IfOk result (λ r. rule_in (rows_in matches.now) ≡ Some r) }
    ensures fit { IfOk result IsRule }
    ensures none { IfErr result (λ e. rule_in (rows_in matches.now) ≡ None) }
    ensures fault { IfErr result (λ e. e ≡ Unreadable) }
{
    let word = needed(matches, CHECK)?;
    match read_check(word.as_bytes()) {
        Some(rule) => Ok(rule),
        None => Err(WordFault::Unreadable),
    }
}

// The address that updates come from, where one is given.
fn provider_in(alloc: Global, matches: &ArgMatches<'_>) -> Result<Option<Text>, WordFault>
    ensures value { IfOk result (λ p. provider_in (rows_in matches.now) ≡ Some p) }
    ensures fit { IfOk result (λ p. IfSome p IsProvider) }
    ensures none { IfErr result (λ e. e ≡ Unreadable → provider_in (rows_in matches.now) ≡ None) }
{
    match given(matches, PROVIDER) {
        Some(word) => match read_provider(alloc, word) {
            Ok(text) => Ok(Some(text)),
            Err(fault) => Err(fault),
        },
        None => Ok(None),
    }
}

// Whether the files are written without `.deploy`.
fn is_plain_in(matches: &ArgMatches<'_>) -> bool
    ensures { result ≡ is_plain_in (rows_in matches.now) }
{
    match given(matches, PLAIN) {
        Some(word) => word == "true",
        None => false,
    }
}

// The marks.
#[tactic(auto, using(crate::proofs::Rows::all_given))]
fn marks_in(alloc: Global, matches: &ArgMatches<'_>) -> Result<List<Mark>, WordFault>
    ensures value { IfOk result (λ ms. marks_in (rows_in matches.now) ≡ Some ms) }
    ensures fit { IfOk result (λ ms. All (λ (m : Mark). IsKind m.kind) ms) }
    ensures none { IfErr result (λ e. e ≡ Unreadable → marks_in (rows_in matches.now) ≡ None) }
{
    match matches.get_raw(MARKS) {
        Some(words) => read_marks(alloc, words),
        None => read_marks(alloc, &[]),
    }
}

// The options that the matches give.
#[tactic(auto, unfolding(crate::specs::Words::options_in))]
fn options_in(alloc: Global, matches: &ArgMatches<'_>) -> Result<Options, WordFault>
    ensures value { IfOk result (λ o. options_in (rows_in matches.now) ≡ Some o) }
    ensures publishable { IfOk result IsPublishable }
    ensures none { IfErr result (λ e. e ≡ Unreadable → options_in (rows_in matches.now) ≡ None) }
{
    let name = name_in(alloc, matches)?;
    let version = release_in(matches)?;
    let entry = file_in(alloc, matches, ENTRY)?;
    let from = file_in(alloc, matches, FROM)?;
    let to = file_in(alloc, matches, TO)?;
    let publisher = publisher_in(alloc, matches, &name)?;
    let minimum = minimum_in(matches)?;
    let rule = rule_in(matches)?;
    let provider = provider_in(alloc, matches)?;
    let marks = marks_in(alloc, matches)?;
    Ok(Options {
        name,
        version,
        entry,
        from,
        to,
        publisher,
        minimum,
        rule,
        provider,
        mapped: !is_plain_in(matches),
        marks,
    })
}

// Whether each of the words is text. It takes no memory.
fn are_texts(words: &[Word]) -> bool
    ensures { result ≡ spec.are_texts words.now }
{
    words.iter().all(|word| text(word.as_slice()).is_ok())
}

// The words as text. There may be no memory for any words.
fn read_texts<'a>(alloc: Global, words: &'a [Word]) -> Result<Vec<&'a str>, WordFault>
    ensures value { IfOk result (λ v. map (λ s. s.now) v.items ≡ words.entry.now) }
    ensures text { IfOk result (λ v. spec.are_texts words.entry.now ≡ true) }
    ensures none { result ≡ Err Unreadable → spec.are_texts words.entry.now ≡ false }
{
    let mut texts = Vec::new(alloc);
    for word in words {
        texts.push(text(word.as_slice())?)?;
    }
    Ok(texts)
}

// The words as text. Want of memory is told only where each of them is.
fn texts<'a>(alloc: Global, words: &'a [Word]) -> Result<Vec<&'a str>, WordFault>
    ensures value { IfOk result (λ v. map (λ s. s.now) v.items ≡ words.entry.now) }
    ensures text { IfOk result (λ v. spec.are_texts words.entry.now ≡ true) }
    ensures none { result ≡ Err Unreadable → spec.are_texts words.entry.now ≡ false }
    ensures memory { result ≡ Err Memory → spec.are_texts words.entry.now ≡ true }
{
    match read_texts(alloc, words) {
        Err(WordFault::Memory) if !are_texts(words) => Err(WordFault::Unreadable),
        texts => texts,
    }
}

/// What the words behind `publish` ask for, in any order: `--name N`, `--release V`, `--entry E`,
/// `--from F` and `--to T`, which have to be there, `--publisher P`, `--minimum V`, `--check C`,
/// `--provider U`, `--plain`, and any number of marks, `data:FILE` or `group:GROUP:FILE`.
///
/// N is text. P is at most 240 bytes of text without control characters but tab, line feed and
/// carriage return, and is N where it is not given. V is a version. E, F, T and FILE are file names,
/// and GROUP is 1 to 240 bytes of text as in P. C is `none`, `before`, or one to nine digits and
/// `h`, `d` or `w` for hours, days or weeks, and `none` where it is not given. U is the text of an
/// address.
///
/// `Unreadable` comes where a word is no text, an option that has to be there is missing, or a value
/// is none of these, unless memory ran out. Else it comes only where the options do not take the
/// words: one is unknown, has no value or stands twice. `Memory` comes only where each word is text.
#[tactic(auto, unfolding(crate::specs::Words::options_of))]
pub fn read_options(alloc: Global, words: &[Word]) -> Result<Options, WordFault>
    ensures value { IfOk result (λ o. options_of words.now ≡ Some o) }
    ensures faultless { IfOk result (λ o. faults words.now ≡ []) }
    ensures none { result ≡ Err Unreadable
        → (options_of words.now ≡ None) ⊎ (¬ Takes words.now) }
    ensures memory { result ≡ Err Memory → spec.are_texts words.now ≡ true }
    ensures publishable { IfOk result IsPublishable }
{
    let texts = texts(alloc, words)?;
    let matches = match_words(alloc, texts.as_slice())?;
    options_in(alloc, &matches)
}
