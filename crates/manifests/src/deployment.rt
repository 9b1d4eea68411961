// Reading deployment manifests.
ghost use Rattle.manifest_tree.specs.Grammar.{SpellsTree};
ghost use Rattle.manifest_tree.specs.Tree.{Tree, tree_of};
ghost use Rattle.manifest_parts.specs.Outcome.{Gives};
ghost use Rattle.manifest_parts.specs.Parts.{Answers};
ghost use Rattle.manifests.specs.Deployments.{deployment_facts, deployment_of};

use crate::Deployment;
use crate::deployment_entry::entry_of;
use crate::deployment_terms::terms_of;
use manifest_parts::{ManifestFault, identity_in, read_root};
use manifest_tree::Node;
use std::alloc::Global;

// The facts of the manifest with this root.
fn facts_of(alloc: Global, root: &Node) -> Result<Deployment, ManifestFault>
    ensures { Gives (λ d. d) result (deployment_facts (tree_of root.now)) }
{
    let identity = identity_in(alloc, root)?;
    let terms = terms_of(alloc, identity.version, root)?;
    let entry = entry_of(alloc, root)?;
    Ok(Deployment {
        identity,
        install: true,
        minimum: terms.minimum,
        mapped: terms.mapped,
        rule: terms.rule,
        provider: terms.provider,
        codebase: entry.codebase,
        app: entry.app,
        app_size: entry.size,
        app_list: entry.digests,
    })
}

/// What the deployment manifest says. It is refused by the first of these: `Tree` exactly where the
/// bytes spell no tree; `Signed` for an element `Signature` anywhere; `Missing` for another root
/// than `assembly`; then the refusals of its identity; of the element `deployment`, whose `install`
/// is true (`OnlineOnly`) and whose minimum is not above the version (`MinimumAboveVersion`); and
/// of the one assembly that is to be installed, where `NoDigest` has the codebase. `Missing`,
/// `Twice` and `BadValue` have the local name of the element or the attribute. `Memory` may come at
/// any bytes.
pub fn read_deployment(alloc: Global, bytes: &[u8]) -> Result<Deployment, ManifestFault>
    // The answer is what a tree says that the bytes spell.
    ensures answers { Answers deployment_of bytes.now result }
    // It is what each tree says that they spell.
    ensures only { (t : Tree) → SpellsTree bytes.now t → Gives (λ d. d) result (deployment_of t) }
{
    let root = read_root(alloc, bytes)?;
    facts_of(alloc, &root)
}
