// The options that the releases are published by.
ghost use Rattle.std.specs.Prelude.{◌≡◌, IfOk};
ghost use Rattle.publisher.specs.Options.{IsPublishable};
ghost use Rattle.generated_release.specs.Options as spec;

use crate::GeneratedRelease;
use crate::files::name_of;
use manifests::Rule;
use publisher::Options;
use small_types::{List, Text};
use std::alloc::{AllocError, Global};

// The name of what is published, which is that of its publisher too.
fn name_text(alloc: Global) -> Result<Text, AllocError>
    ensures { IfOk result (λ text. text ≡ spec.name_text) }
{
    Ok(Text::from_string(String::from_str(alloc, "demo")?))
}

/// The options of the release: no minimum, no checks, no provider and no marks, with `.deploy`.
pub(crate) fn options_of(alloc: Global, release: GeneratedRelease) -> Result<Options, AllocError>
    ensures options { IfOk result (λ options. options ≡ spec.options_of release) }
    ensures publishable { IfOk result IsPublishable }
{
    Ok(Options {
        name: name_text(alloc)?,
        version: release.version(),
        entry: name_of(alloc, b"f000.txt")?,
        from: name_of(alloc, b"in")?,
        to: name_of(alloc, release.folder())?,
        publisher: name_text(alloc)?,
        minimum: None,
        rule: Rule::Never,
        provider: None,
        mapped: true,
        marks: List::from_vec(Vec::new(alloc)),
    })
}
