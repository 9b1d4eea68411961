// The words behind `publish` as a command line.
ghost use Rattle.std.specs.Prelude.{◌≡◌, ◌≢◌, [], map, IfOk, IfErr};
ghost use Rattle.clap.specs.Words.{app_of, with_rule};
ghost use Rattle.publication.specs.Command.{Takes, check_rule, faults, marks_rule, matches_in, option_rule, plain_rule, publish_app, required_rule, rows_in};
ghost use Rattle.publication.specs.declared.values.WordFault.TheVariants.{Memory, Unreadable};

use crate::values::WordFault;
use clap::error::ErrorKind;
use clap::{Arg, ArgAction, ArgMatches, Command};
use std::alloc::{AllocError, Global};

pub(crate) const NAME: &str = "name";

pub(crate) const RELEASE: &str = "release";

pub(crate) const ENTRY: &str = "entry";

pub(crate) const FROM: &str = "from";

pub(crate) const TO: &str = "to";

pub(crate) const PUBLISHER: &str = "publisher";

pub(crate) const MINIMUM: &str = "minimum";

pub(crate) const CHECK: &str = "check";

pub(crate) const PROVIDER: &str = "provider";

pub(crate) const PLAIN: &str = "plain";

pub(crate) const MARKS: &str = "marks";

// The command with an option of this name that has to be there.
fn with_required<'a>(
    alloc: Global,
    command: Command<'a>,
    name: &'a str,
) -> Result<Command<'a>, AllocError>
    ensures { IfOk result (λ c. app_of c
        ≡ with_rule (app_of command.entry) (required_rule name.entry.now)) }
{
    command.arg(Arg::new(alloc, name).long(name).required(true))
}

// The command with an option of this name that may be left out.
fn with_option<'a>(
    alloc: Global,
    command: Command<'a>,
    name: &'a str,
) -> Result<Command<'a>, AllocError>
    ensures { IfOk result (λ c. app_of c
        ≡ with_rule (app_of command.entry) (option_rule name.entry.now)) }
{
    command.arg(Arg::new(alloc, name).long(name))
}

// The command with the option that says when a new version is looked for.
fn with_check<'a>(alloc: Global, command: Command<'a>) -> Result<Command<'a>, AllocError>
    ensures { IfOk result (λ c. app_of c ≡ with_rule (app_of command.entry) check_rule) }
{
    command.arg(Arg::new(alloc, CHECK).long(CHECK).default_value("none"))
}

// The command with the flag that leaves `.deploy` out.
fn with_plain<'a>(alloc: Global, command: Command<'a>) -> Result<Command<'a>, AllocError>
    ensures { IfOk result (λ c. app_of c ≡ with_rule (app_of command.entry) plain_rule) }
{
    let plain = Arg::new(alloc, PLAIN)
        .long(PLAIN)
        .action(ArgAction::SetTrue);
    command.arg(plain)
}

// The command with marks.
fn with_marks<'a>(alloc: Global, command: Command<'a>) -> Result<Command<'a>, AllocError>
    ensures { IfOk result (λ c. app_of c ≡ with_rule (app_of command.entry) marks_rule) }
{
    command.arg(Arg::new(alloc, MARKS).action(ArgAction::Append))
}

// The command.
#[tactic(auto, unfolding(crate::specs::Command::publish_app))]
fn publish_command<'a>(alloc: Global) -> Result<Command<'a>, AllocError>
    ensures { IfOk result (λ c. app_of c ≡ publish_app) }
{
    let command = Command::new(alloc, "publish")
        .no_binary_name(true)
        .disable_help_flag(true);
    let command = with_required(alloc, command, NAME)?;
    let command = with_required(alloc, command, RELEASE)?;
    let command = with_required(alloc, command, ENTRY)?;
    let command = with_required(alloc, command, FROM)?;
    let command = with_required(alloc, command, TO)?;
    let command = with_option(alloc, command, PUBLISHER)?;
    let command = with_option(alloc, command, MINIMUM)?;
    let command = with_check(alloc, command)?;
    let command = with_option(alloc, command, PROVIDER)?;
    let command = with_plain(alloc, command)?;
    with_marks(alloc, command)
}

// Why words were not read, by the kind of the command's fault.
fn fault_of(kind: ErrorKind) -> WordFault
    ensures refused { result ≡ Unreadable → kind ≢ ErrorKind.OutOfMemory }
    ensures memory { result ≡ Memory → kind ≡ ErrorKind.OutOfMemory }
{
    match kind {
        ErrorKind::OutOfMemory => WordFault::Memory,
        _ => WordFault::Unreadable,
    }
}

/// What the words give for each option, and for the marks. `Unreadable` comes only where the
/// command does not take the words.
pub(crate) fn match_words<'a>(
    alloc: Global,
    words: &'a [&'a str],
) -> Result<ArgMatches<'a>, WordFault>
    ensures value { IfOk result (λ m. rows_in m ≡ matches_in (map (λ s. s.now) words.entry.now)) }
    ensures faultless { IfOk result (λ m. faults (map (λ s. s.now) words.entry.now) ≡ []) }
    ensures none { IfErr result (λ e. e ≡ Unreadable
        → ¬ Takes (map (λ s. s.now) words.entry.now)) }
{
    let command = publish_command(alloc)?;
    match command.try_get_matches_from(words) {
        Ok(matches) => Ok(matches),
        Err(error) => Err(fault_of(error.kind())),
    }
}
