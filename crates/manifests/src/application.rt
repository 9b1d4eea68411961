// Reading an application manifest.
ghost use Rattle.std.specs.Prelude.{[], Some};
ghost use Rattle.manifest_tree.specs.Grammar.{SpellsTree};
ghost use Rattle.manifest_tree.specs.Tree.{Tree, tree_of};
ghost use Rattle.manifest_parts.specs.Elements.{children_of};
ghost use Rattle.manifest_parts.specs.Parts.{Answers};
ghost use Rattle.manifest_parts.specs.Outcome.{Gives};
ghost use Rattle.manifests.specs.Applications as spec;
ghost use Rattle.manifests.specs.Listings.{listed, start_of as start};

use crate::Application;
use crate::attributes::needed_attribute;
use crate::entry::file_of;
use crate::files::Files;
use crate::listing::{Listing, listing_of};
use manifest_parts::{
    ManifestFault, attribute, children, filled, identity_in, once, read_root, within,
};
use manifest_tree::Node;
use small_types::limits::{NAME_LIMIT, URL_LIMIT};
use small_types::{List, Text};
use std::alloc::Global;

// What is started.
#[derive(Drop)]
struct EntryPoint {
    entry: Text,
    parameters: Text,
}

// What the one command line of the one entry point says.
fn start_of(alloc: Global, root: &Node) -> Result<EntryPoint, ManifestFault>
    ensures { Gives start result (spec.start_of (tree_of root.now)) }
{
    let point = once(alloc, root, "entryPoint")?;
    let command = once(alloc, point, "commandLine")?;
    let given = needed_attribute(alloc, command, "file")?;
    let entry = filled(alloc, NAME_LIMIT, "file", given)?;
    let parameters = within(
        alloc,
        URL_LIMIT,
        "parameters",
        attribute(command, "parameters"),
    )?;
    Ok(EntryPoint { entry, parameters })
}

// These files, and the one that is listed.
fn with_listed(alloc: Global, files: Files, listing: &Listing<'_>) -> Result<Files, ManifestFault>
    ensures { Gives (λ f. f) result (spec.with_file files (Some (listed listing.now))) }
{
    let entry = file_of(alloc, &files, listing)?;
    files.with(alloc, entry)
}

// These files, and the one that a child of the root lists, if it lists one.
fn with_child(alloc: Global, files: Files, child: &Node) -> Result<Files, ManifestFault>
    ensures { Gives (λ f. f) result (spec.child_file files (tree_of child.now)) }
{
    let found = listing_of(alloc, child)?;
    match found {
        Some(listing) => with_listed(alloc, files, &listing),
        None => Ok(files),
    }
}

// The files that the children of the root list, in order.
fn files_of(alloc: Global, root: &Node) -> Result<Files, ManifestFault>
    ensures { Gives (λ f. f) result (spec.files_from [] (children_of (tree_of root.now))) }
{
    let mut files = Files::new(alloc);
    let nodes = children(root);
    for child in nodes {
        files = with_child(alloc, files, child)?;
    }
    Ok(files)
}

// What the root says.
fn facts_of(alloc: Global, root: &Node) -> Result<Application, ManifestFault>
    ensures { Gives (λ a. a) result (spec.application_facts (tree_of root.now)) }
{
    let identity = identity_in(alloc, root)?;
    let start = start_of(alloc, root)?;
    let files = files_of(alloc, root)?;
    let EntryPoint { entry, parameters } = start;
    Ok(Application {
        identity,
        entry,
        parameters,
        files: files.into_list(),
    })
}

/// What the application manifest says, or its first refusal.
///
/// # Errors
///
/// In this order: `Tree` where the bytes are no text of the profile, `Signed` where an element `Signature` stands
/// anywhere, `Missing` where the root is no `assembly`; the refusals of the identity; those of the one `entryPoint`
/// and its one `commandLine`; and those of each file in document order: of its name, its size, its digests, its group,
/// and `TooMany`. `Memory` may come at any bytes.
pub fn read_application(alloc: Global, bytes: &[u8]) -> Result<Application, ManifestFault>
    ensures answers { Answers spec.application_of bytes.now result }
    ensures only { (t : Tree) → SpellsTree bytes.now t
        → Gives (λ a. a) result (spec.application_of t) }
{
    let root = read_root(alloc, bytes)?;
    facts_of(alloc, &root)
}
