// Options that can be published, and others. What is published is compared by a program, `worked_publish`.
use identity::Version;
use manifests::Rule;
use publisher::{Options, is_publishable};
use small_types::{List, Name, Text};
use std::alloc::Global;
use std::test::Fail;

fn text(alloc: Global, words: &str) -> Result<Text, Fail> {
    Ok(Text::from_string(String::from_str(alloc, words)?))
}

fn name(alloc: Global, words: &str) -> Result<Name, Fail> {
    Ok(Name::read(alloc, words.as_bytes())?)
}

// Whether options with this rule can be published.
fn fits(alloc: Global, rule: Rule) -> Result<bool, Fail> {
    let options = Options {
        name: text(alloc, "demo")?,
        version: Version {
            a: 1,
            b: 0,
            c: 0,
            d: 0,
        },
        entry: name(alloc, "app.exe")?,
        from: name(alloc, "in")?,
        to: name(alloc, "one")?,
        publisher: text(alloc, "Some One")?,
        minimum: None,
        rule,
        provider: None,
        mapped: true,
        marks: List::from_vec(Vec::new(alloc)),
    };
    let fits = is_publishable(alloc, &options);
    drop(options);
    Ok(fits?)
}

#[test]
fn an_age_has_whole_hours(rt: HostRuntime) -> Result<(), Fail> {
    for (seconds, whole) in [(7200, true), (7201, false)] {
        let fits = fits(rt.alloc(), Rule::Age { seconds })?;
        assert!(rt; fits == whole, "{seconds}");
    }
    Ok(())
}
