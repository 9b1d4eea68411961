// What a deployment manifest says of its application manifest.
ghost use Rattle.std.specs.Prelude.{◌≡◌, ◌≤◌, ◌++◌, List, IfOk, IfErr, codes};
ghost use Rattle.manifest_tree.specs.Tree.{Tree, tree_of};
ghost use Rattle.manifest_parts.specs.Elements.{children_called};
ghost use Rattle.manifest_parts.specs.Outcome.{Fails, Gives, tree_at};
ghost use Rattle.manifests.specs.Deployments.{assembly_of as assembly_in, entry_of as entry_in};

use crate::attributes::{needed_attribute, size_attribute};
use crate::types::is_installed;
use digest_list::DigestList;
use identity::Identity;
use manifest_parts::{
    ManifestFault, children, digests_of, filled, identity_in, is_called, missing, twice,
};
use manifest_tree::Node;
use small_types::Text;
use small_types::limits::{MANIFEST_LIMIT, URL_LIMIT};
use std::alloc::Global;

// What is said of the application manifest.
#[derive(Drop)]
pub(crate) struct Entry {
    pub(crate) codebase: Text,
    pub(crate) size: u64,
    pub(crate) app: Identity,
    pub(crate) digests: DigestList,
}

// What is found of the assemblies that are to be installed.
#[derive(Clone, Copy)]
enum Found<'a> {
    Nothing,
    One(&'a Node),
    More,
}

impl<'a> Found<'a> {
    ghost use Rattle.std.specs.Prelude.{◌∷◌};
    ghost use Rattle.manifests.specs.Found.{one_behind, one_with};

    // What is found with one more.
    fn with(self, assembly: &'a Node) -> Found<'a>
        ensures { (ts : List Tree)
            → one_behind result ts ≡ one_behind self.entry (tree_at assembly.entry ∷ ts) }
    {
        match self {
            Found::Nothing => Found::One(assembly),
            Found::One(_) | Found::More => Found::More,
        }
    }

    // What is found with the assembly, where it is to be installed.
    fn with_judged(self, alloc: Global, assembly: &'a Node) -> Result<Found<'a>, ManifestFault>
        ensures found { IfOk result (λ found. (ts : List Tree)
            → one_with found ts ≡ one_with self.entry (tree_at assembly.entry ∷ ts)) }
        ensures refused { IfErr result (λ e. (ts : List Tree)
            → Fails e (one_with self.entry (tree_at assembly.entry ∷ ts))) }
    {
        let wanted = is_installed(alloc, assembly)?;
        if wanted {
            return Ok(self.with(assembly));
        }
        Ok(self)
    }

    // What is found with those of a dependency.
    fn with_those_of(self, alloc: Global, dependency: &'a Node) -> Result<Found<'a>, ManifestFault>
        ensures found { IfOk result (λ found. (ts : List Tree)
            → one_with found ts
            ≡ one_with self.entry
            (children_called (codes "dependentAssembly") (tree_at dependency.entry) ++ ts)) }
        ensures refused { IfErr result (λ e. (ts : List Tree)
            → Fails e (one_with self.entry
            (children_called (codes "dependentAssembly") (tree_at dependency.entry) ++ ts))) }
    {
        let mut found = self;
        let nodes = children(dependency);
        for child in nodes {
            if !is_called(child, "dependentAssembly") {
                continue;
            }
            found = found.with_judged(alloc, child)?;
        }
        Ok(found)
    }
}

// The one assembly of all dependencies that is to be installed. All are judged before they are counted.
fn assembly_of(alloc: Global, root: &Node) -> Result<&Node, ManifestFault>
    ensures { Gives tree_at result (assembly_in (tree_of root.now)) }
{
    let mut found = Found::Nothing;
    let nodes = children(root);
    for child in nodes {
        if !is_called(child, "dependency") {
            continue;
        }
        found = found.with_those_of(alloc, child)?;
    }
    match found {
        Found::Nothing => missing(alloc, "dependentAssembly"),
        Found::One(assembly) => Ok(assembly),
        Found::More => twice(alloc, "dependentAssembly"),
    }
}

// What is said of the application manifest.
pub(crate) fn entry_of(alloc: Global, root: &Node) -> Result<Entry, ManifestFault>
    ensures { Gives (λ e. e) result (entry_in (tree_of root.now)) }
{
    let assembly = assembly_of(alloc, root)?;
    let given = needed_attribute(alloc, assembly, "codebase")?;
    let codebase = filled(alloc, URL_LIMIT, "codebase", given)?;
    let size = size_attribute(alloc, assembly, MANIFEST_LIMIT as u64)?;
    let app = identity_in(alloc, assembly)?;
    let digests = digests_of(alloc, codebase.as_str(), assembly)?;
    Ok(Entry {
        codebase,
        size,
        app,
        digests,
    })
}
