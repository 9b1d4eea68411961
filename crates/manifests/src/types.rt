// Which assemblies are to be installed.
ghost use Rattle.manifest_tree.specs.Tree.{tree_of};
ghost use Rattle.manifest_parts.specs.Outcome.{Gives};
ghost use Rattle.manifests.specs.Types.{installed_type};

use manifest_parts::{ManifestFault, attribute, bad_value};
use manifest_tree::Node;
use std::alloc::Global;

/// Whether the assembly is to be installed, which it is where nothing is said; a prerequisite is not. `BadValue` of
/// `dependencyType` for any other word.
#[tactic(auto, unfolding(crate::specs::Types::installed_type))]
pub(crate) fn is_installed(alloc: Global, assembly: &Node) -> Result<bool, ManifestFault>
    ensures { Gives (λ b. b) result (installed_type (tree_of assembly.now)) }
{
    let Some(word) = attribute(assembly, "dependencyType") else {
        return Ok(true);
    };
    let word = word.as_str();
    if word == "install" {
        return Ok(true);
    }
    if word == "preRequisite" {
        return Ok(false);
    }
    bad_value(alloc, "dependencyType")
}
