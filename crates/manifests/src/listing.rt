// What an element of an application manifest lists.
ghost use Rattle.std.specs.Prelude.{◌≡◌};
ghost use Rattle.manifest_tree.specs.Tree.{tree_of};
ghost use Rattle.manifest_parts.specs.Outcome.{Gives, maybe_text};
ghost use Rattle.manifests.specs.Applications as spec;
ghost use Rattle.manifests.specs.Listings.{listed, maybe_listing};

use crate::types::is_installed;
use manifest_parts::{ManifestFault, attribute, first_child, is_called};
use manifest_tree::Node;
use small_types::Text;
use std::alloc::Global;

/// An element that lists a file, and where the file's facts stand.
#[derive(Clone, Copy)]
pub(crate) struct Listing<'a> {
    // The local name of the attribute that names the file.
    pub(crate) what: &'static str,
    pub(crate) name: Option<&'a Text>,
    pub(crate) size: Option<&'a Text>,
    // The element that has the hashes.
    pub(crate) hashed: &'a Node,
    pub(crate) optional: Option<&'a Text>,
    pub(crate) group: Option<&'a Text>,
    // Whether it is a data file.
    pub(crate) local: bool,
}

// Whether the value marks a data file.
fn is_data(value: Option<&Text>) -> bool
    ensures { result ≡ spec.is_data (maybe_text value.entry) }
{
    match value {
        Some(value) => value.as_bytes() == b"applicationData".as_slice(),
        None => false,
    }
}

// What an element `file` lists.
fn of_file(file: &Node) -> Listing<'_>
    ensures { listed result ≡ spec.file_listing (tree_of file.now) }
{
    Listing {
        what: "name",
        name: attribute(file, "name"),
        size: attribute(file, "size"),
        hashed: file,
        optional: attribute(file, "optional"),
        group: attribute(file, "group"),
        local: is_data(attribute(file, "writeableType")),
    }
}

// An attribute of the dependency, or else of its assembly.
fn either<'a>(dependency: &'a Node, assembly: &'a Node, wanted: &str) -> Option<&'a Text>
    ensures { maybe_text result
        ≡ spec.either wanted.now (tree_of dependency.now) (tree_of assembly.now) }
{
    match attribute(dependency, wanted) {
        Some(value) => Some(value),
        None => attribute(assembly, wanted),
    }
}

// What an assembly that is to be installed lists.
fn of_assembly<'a>(dependency: &'a Node, assembly: &'a Node) -> Listing<'a>
    ensures { listed result
        ≡ spec.assembly_listing (tree_of dependency.now) (tree_of assembly.now) }
{
    Listing {
        what: "codebase",
        name: attribute(assembly, "codebase"),
        size: attribute(assembly, "size"),
        hashed: assembly,
        optional: either(dependency, assembly, "optional"),
        group: either(dependency, assembly, "group"),
        local: false,
    }
}

// What a dependency lists, of which the first assembly counts. A prerequisite, and a dependency without an assembly,
// lists no file.
fn of_dependency(alloc: Global, dependency: &Node) -> Result<Option<Listing<'_>>, ManifestFault>
    ensures { Gives maybe_listing result
        (spec.dependency_listing (tree_of dependency.now)
        (spec.first_assembly (tree_of dependency.now))) }
{
    let Some(assembly) = first_child(dependency, "dependentAssembly") else {
        return Ok(None);
    };
    let wanted = is_installed(alloc, assembly)?;
    if wanted {
        return Ok(Some(of_assembly(dependency, assembly)));
    }
    Ok(None)
}

/// What a child of the root lists.
pub(crate) fn listing_of(alloc: Global, child: &Node) -> Result<Option<Listing<'_>>, ManifestFault>
    ensures { Gives maybe_listing result (spec.listing_of (tree_of child.now)) }
{
    let is_file = is_called(child, "file");
    if is_file {
        return Ok(Some(of_file(child)));
    }
    let is_dependency = is_called(child, "dependency");
    if is_dependency {
        return of_dependency(alloc, child);
    }
    Ok(None)
}
