// What is planned, and each refusal where a later one applies too.
use identity::Version;
use manifests::Rule;
use publish_plan::{
    Mark, MarkKind, Options, PlanFault, PlannedFile, PublishPlan, check_options, codebase_of, plan,
};
use small_types::{Limit, List, Name, Text};
use std::alloc::{AllocError, Global};
use std::test::Fail;

fn text(alloc: Global, text: &str) -> Result<Text, AllocError> {
    Ok(Text::from_string(String::from_str(alloc, text)?))
}

// The names between the bars.
fn names(alloc: Global, text: &str) -> Result<Vec<Name>, Fail> {
    let mut found = Vec::new(alloc);
    for name in text.split('|') {
        found.push(Name::read(alloc, name.as_bytes())?)?;
    }
    Ok(found)
}

// The marks between the bars, each a file that is made a data file, or a group, an equals sign and a file.
fn marks(alloc: Global, words: &str) -> Result<List<Mark>, Fail> {
    let mut found = Vec::new(alloc);
    for word in words.split('|') {
        if word.is_empty() {
            continue;
        }
        let (kind, file) = match word.split_once('=') {
            Some((group, file)) => (MarkKind::Group(text(alloc, group)?), file),
            None => (MarkKind::Local, word),
        };
        let file = Name::read(alloc, file.as_bytes())?;
        found.push(Mark { kind, file })?;
    }
    Ok(List::from_vec(found))
}

fn version(a: u16) -> Version {
    Version {
        a,
        b: 0,
        c: 0,
        d: 0,
    }
}

// The name and the publisher.
fn texts(alloc: Global, name: &str) -> Result<(Text, Text), AllocError> {
    let name = text(alloc, name)?;
    Ok((name, text(alloc, "maker")?))
}

// The entry and both folders.
fn places(alloc: Global, entry: &str, from: &str, to: &str) -> Result<(Name, Name, Name), Fail> {
    let entry = Name::read(alloc, entry.as_bytes())?;
    let from = Name::read(alloc, from.as_bytes())?;
    Ok((entry, from, Name::read(alloc, to.as_bytes())?))
}

// The options of version 1.0.0.0 with this name, this entry, these folders, these marks and this least version.
fn options(
    alloc: Global,
    words: (&str, &str, &str, &str),
    marks: List<Mark>,
    minimum: u16,
    mapped: bool,
) -> Result<Options, Fail> {
    let (name, publisher) = texts(alloc, words.0)?;
    let (entry, from, to) = places(alloc, words.1, words.2, words.3)?;
    Ok(Options {
        name,
        version: version(1),
        entry,
        from,
        to,
        publisher,
        minimum: Some(version(minimum)),
        rule: Rule::Never,
        provider: None,
        mapped,
        marks,
    })
}

// The word of a refusal, and what it names, with no byte where it names nothing.
fn words_of(fault: &PlanFault) -> (&'static str, &str) {
    match fault {
        PlanFault::BadName { word } => ("bad-name ", word.as_str()),
        PlanFault::MinimumAbove { minimum } => {
            (
                "minimum-above ",
                if minimum.a == 2 { "2" } else { "another" },
            )
        }
        PlanFault::VersionExists { file } => ("version-exists ", file.as_str()),
        PlanFault::EmptyInput => ("empty-input", ""),
        PlanFault::BadInput { file } => ("bad-input ", file.as_str()),
        PlanFault::TooMany {
            what: Limit::Locals,
        } => ("too-many locals", ""),
        PlanFault::TooMany { .. } => ("too-many files", ""),
        PlanFault::NoEntryPoint => ("no-entry-point", ""),
        PlanFault::BadMark { file } => ("bad-mark ", file.as_str()),
        PlanFault::Memory => ("memory", ""),
    }
}

fn said_of_fault(alloc: Global, fault: PlanFault) -> Result<String, AllocError> {
    let (word, named) = words_of(&fault);
    let said = format!(in alloc; "{word}{named}");
    drop(fault);
    said
}

// The group of the file behind a space, if it has one.
fn push_group(said: &mut String, group: &Option<Text>) -> Result<(), AllocError> {
    match group {
        Some(group) => {
            said.push_str(" ")?;
            said.push_str(group.as_str())
        }
        None => Ok(()),
    }
}

// The three names of the file, each with a space behind it.
fn push_names(said: &mut String, file: &PlannedFile) -> Result<(), AllocError> {
    for name in [&file.source, &file.file, &file.target] {
        said.push_str(name.as_str())?;
        said.push_str(" ")?;
    }
    Ok(())
}

fn push_file(said: &mut String, file: &PlannedFile) -> Result<(), AllocError> {
    push_names(said, file)?;
    said.push_str(if file.local { "data" } else { "program" })?;
    push_group(said, &file.group)?;
    said.push_str("\n")
}

fn said_of_plan(alloc: Global, plan: &PublishPlan) -> Result<String, AllocError> {
    let mut said = String::new(alloc);
    for file in plan.files.as_slice() {
        push_file(&mut said, file)?;
    }
    said.push_str(plan.manifest.as_str())?;
    said.push_str("\n")?;
    said.push_str(plan.deployment.as_str())?;
    Ok(said)
}

// What is answered to these options over a folder with these names.
fn said(alloc: Global, options: &Options, names: &[Name]) -> Result<String, AllocError> {
    if let Err(fault) = check_options(alloc, options) {
        return said_of_fault(alloc, fault);
    }
    match plan(alloc, options, names) {
        Ok(plan) => {
            let said = said_of_plan(alloc, &plan);
            drop(plan);
            said
        }
        Err(fault) => said_of_fault(alloc, fault),
    }
}

// What is answered to these options over a folder with these names. Options are large, and are dropped here alone.
fn answer_over(
    alloc: Global,
    words: (&str, &str, &str, &str),
    marks: List<Mark>,
    minimum: u16,
    mapped: bool,
    names: &[Name],
) -> Result<String, Fail> {
    let options = options(alloc, words, marks, minimum, mapped)?;
    let answer = said(alloc, &options, names);
    drop(options);
    Ok(answer?)
}

// What is answered to these options over a folder with the names between the bars.
fn answer_to(
    alloc: Global,
    words: (&str, &str, &str, &str),
    marked: &str,
    minimum: u16,
    mapped: bool,
    listed: &str,
) -> Result<String, Fail> {
    let listed = names(alloc, listed)?;
    let marks = marks(alloc, marked)?;
    answer_over(alloc, words, marks, minimum, mapped, &listed)
}

const TO_195: &str =
    "ttttttttttttttttttttttttttttttttttttttttttttttttttttttttttttttttttttttttttttttttttttttttttttttttttttttttttttttttttttttttttttttttttttttttttttttttttttttttttttttttttttttttttttttttttttttttttttttttttt";

const NAME_199: &str =
    "nnnnnnnnnnnnnnnnnnnnnnnnnnnnnnnnnnnnnnnnnnnnnnnnnnnnnnnnnnnnnnnnnnnnnnnnnnnnnnnnnnnnnnnnnnnnnnnnnnnnnnnnnnnnnnnnnnnnnnnnnnnnnnnnnnnnnnnnnnnnnnnnnnnnnnnnnnnnnnnnnnnnnnnnnnnnnnnnnnnnnnnnnnnnnnnnnnnnnnn";

// The name, the entry and both folders, where the least version is 2.0.0.0, and the answer.
const OPTIONS: &[((&str, &str, &str, &str), &str)] = &[
    (("de/mo", "a+b", "in", "in"), "bad-name name"),
    (("", "a.exe", "in", "out"), "bad-name name"),
    (("demo", "a+b", "in", "in"), "bad-name entry"),
    (("demo", "a.exe", "in", "in"), "bad-name to"),
    (("demo", "a.exe", "in", "in/out"), "bad-name to"),
    (("demo", "a.exe", "in/out", "in"), "bad-name to"),
    (("demo", "a.exe", "in", TO_195), "bad-name entry"),
    (("demo", "a.exe", "in", "inn"), "minimum-above 2"),
];

#[test]
fn refuses_options(rt: HostRuntime) -> Result<(), Fail> {
    for (words, wanted) in OPTIONS {
        let answer = answer_to(rt.alloc(), *words, "", 2, true, "in/a.exe")?;
        assert!(rt; answer.as_str() == *wanted, "{answer} for {wanted}");
    }
    Ok(())
}

const WORDS: (&str, &str, &str, &str) = ("demo", "a.exe", "in", "out");

// The marks, the names in the folder, and the answer.
const FILES: &[(&str, &str, &str)] = &[
    (
        "",
        "out/Application Files/demo_1_0_0_0/b|out/Application Files/demo_1_0_0_0/c|x",
        "version-exists out/Application Files/demo_1_0_0_0/b",
    ),
    (
        "",
        "inn/a.exe|out/Application Files/demo_1_0_0_1/b",
        "empty-input",
    ),
    ("x", "in/.pre/b|in/.pre/c|in/x", "bad-input .pre/b"),
    ("a.exe|y", "in/a.exe|in/b", "no-entry-point"),
    ("y", "in/b", "no-entry-point"),
    ("b|y|g=b", "in/a.exe|in/b", "bad-mark y"),
    ("b|g=b|y", "in/a.exe|in/b", "bad-mark b"),
];

#[test]
fn refuses_files(rt: HostRuntime) -> Result<(), Fail> {
    for (marked, listed, wanted) in FILES {
        let answer = answer_to(rt.alloc(), WORDS, marked, 1, true, listed)?;
        assert!(rt; answer.as_str() == *wanted, "{answer} for {wanted}");
    }
    Ok(())
}

// Whether a name that is too long below the folder of the release is refused by itself.
fn is_long_refused(alloc: Global) -> Result<bool, Fail> {
    let listed = format!(in alloc; "in/{NAME_199}|in/z")?;
    let answer = answer_to(alloc, WORDS, "", 1, true, listed.as_str())?;
    Ok(answer.as_str().ends_with(NAME_199))
}

#[test]
fn refuses_a_long_name(rt: HostRuntime) -> Result<(), Fail> {
    assert!(rt; is_long_refused(rt.alloc())?);
    Ok(())
}

// As many names as there are numbers below n, in the folder, or as they are within it.
fn numbered(alloc: Global, count: usize, folder: &str) -> Result<Vec<Name>, Fail> {
    let mut listed = Vec::new(alloc);
    for i in 0..count {
        let name = format!(in alloc; "{folder}{i:05}")?;
        listed.push(Name::read(alloc, name.as_bytes())?)?;
    }
    Ok(listed)
}

// A mark on each of them, as data files.
fn all_marked(alloc: Global, count: usize) -> Result<List<Mark>, Fail> {
    let mut marked = Vec::new(alloc);
    for file in numbered(alloc, count, "")? {
        marked.push(Mark {
            kind: MarkKind::Local,
            file,
        })?;
    }
    Ok(List::from_vec(marked))
}

// What is answered to so many files, each a data file or none.
fn answer_to_many(alloc: Global, count: usize, data: bool) -> Result<String, Fail> {
    let listed = numbered(alloc, count, "in/")?;
    let marks = all_marked(alloc, if data { count } else { 0 })?;
    answer_over(alloc, WORDS, marks, 1, true, &listed)
}

// How many files, whether they are data files, and the answer.
const MANY: &[(usize, bool, &str)] = &[
    (16_385, false, "too-many files"),
    (257, true, "too-many locals"),
    (256, true, "no-entry-point"),
];

#[test]
fn refuses_more_than_the_limits(rt: HostRuntime) -> Result<(), Fail> {
    for (count, data, wanted) in MANY {
        let answer = answer_to_many(rt.alloc(), *count, *data)?;
        assert!(rt; answer.as_str() == *wanted, "{answer} for {wanted}");
    }
    Ok(())
}

const TO_ONE: (&str, &str, &str, &str) = ("demo", "a.exe", "in", "one");

// Whether files are mapped, the names in the folder, and the answer.
const PLANS: &[(bool, &str, &str)] = &[
    (
        true,
        "demo.txt|in/a.exe|in/b/c|in/d.txt|one/demo.application",
        "in/a.exe a.exe one/Application Files/demo_1_0_0_0/a.exe.deploy program\nin/b/c b/c one/Application Files/demo_1_0_0_0/b/c.deploy program help\nin/d.txt d.txt one/Application Files/demo_1_0_0_0/d.txt.deploy data\none/Application Files/demo_1_0_0_0/a.exe.manifest\none/demo.application",
    ),
    (
        false,
        "in/a.exe|in/a.exe.manifest",
        "bad-input a.exe.manifest",
    ),
];

#[test]
fn plans_three_files(rt: HostRuntime) -> Result<(), Fail> {
    for (mapped, listed, wanted) in PLANS {
        let answer = answer_to(rt.alloc(), TO_ONE, "help=b/c|d.txt", 1, *mapped, listed)?;
        assert!(rt; answer.as_str() == *wanted, "{answer} for {wanted}");
    }
    Ok(())
}

// Whether that is the codebase of the application.
fn has_codebase(alloc: Global, wanted: &str) -> Result<bool, Fail> {
    let options = options(alloc, TO_ONE, List::from_vec(Vec::new(alloc)), 1, true)?;
    let codebase = codebase_of(alloc, &options);
    drop(options);
    Ok(codebase?.as_str() == wanted)
}

#[test]
fn the_codebase_is_below_the_files(rt: HostRuntime) -> Result<(), Fail> {
    let wanted = "Application Files\\demo_1_0_0_0\\a.exe.manifest";
    assert!(rt; has_codebase(rt.alloc(), wanted)?);
    Ok(())
}
