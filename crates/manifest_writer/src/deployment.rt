// Writing deployment manifests.
ghost use Rattle.std.specs.Prelude.{◌≡◌, ◌<◌, length, IsTrue, IfOk, IfErr, OnOk, Ok};
ghost use Rattle.small_types.specs.declared.limits.TheConstants.{MANIFEST_LIMIT};
ghost use Rattle.manifest_tree.specs.Tree.{tree_of};
ghost use Rattle.manifest_tree.specs.WrittenText.{is_content, IsUnwritten};
ghost use Rattle.manifest_parts.specs.Parts.{Tells};
ghost use Rattle.manifests.specs.Deployments.{deployment_of};
ghost use Rattle.manifest_writer.specs.Deployments.{description_tree, dependency_tree, assembly_attributes, assembly_tree, deployment_tree, deployment_text};
ghost use Rattle.manifests.specs.Facts.{AreDeploymentFacts};

use crate::digests::add_hashes;
use crate::elements::{add_child, attributes, element, element_around, root};
use crate::fault::NoMemory;
use crate::held::deployment_held;
use crate::identities::identity_node;
use crate::terms::terms_node;
use itoa::Buffer;
use manifest_tree::{Attribute, Node, WriteFault, write_tree};
use manifests::Deployment;
use small_types::{Bytes, Text};
use std::alloc::Global;

// Whose the application is, and what it is called.
fn description_node(alloc: Global, publisher: &Text, product: &Text) -> Result<Node, NoMemory>
    ensures { IfOk result (λ made. tree_of made ≡ description_tree publisher.now product.now) }
{
    let named = attributes(
        alloc,
        &[
            ("asmv2:publisher", publisher.as_str()),
            ("asmv2:product", product.as_str()),
        ],
    )?;
    element(alloc, "asmv1:description", named, Vec::new(alloc))
}

// Where the application manifest stands, and its size.
fn assembly_attributes<'a>(
    alloc: Global,
    codebase: &'a str,
    size: &'a str,
) -> Result<Vec<Attribute>, NoMemory>
    ensures { IfOk result (λ made. made.items ≡ assembly_attributes codebase.now size.now) }
{
    attributes(
        alloc,
        &[
            ("dependencyType", "install"),
            ("codebase", codebase),
            ("size", size),
        ],
    )
}

// What is said of the application manifest.
fn assembly_node(alloc: Global, d: &Deployment) -> Result<Node, NoMemory>
    ensures { IfOk result (λ made. tree_of made ≡ assembly_tree d.now) }
{
    let mut buffer = Buffer::new();
    let size = buffer.format(d.app_size);
    let named = assembly_attributes(alloc, d.codebase.as_str(), size)?;
    let mut children = Vec::new(alloc);
    add_child(
        &mut children,
        identity_node(alloc, "assemblyIdentity", &d.app)?,
    )?;
    add_hashes(alloc, &mut children, d.app_list.as_slice())?;
    element(alloc, "dependentAssembly", named, children)
}

// The dependency on the application manifest.
#[tactic(auto, unfolding(crate::specs::Deployments::dependency_tree))]
fn dependency_node(alloc: Global, d: &Deployment) -> Result<Node, NoMemory>
    ensures { IfOk result (λ made. tree_of made ≡ dependency_tree d.now) }
{
    let assembly = assembly_node(alloc, d)?;
    element_around(alloc, "dependency", assembly)
}

// The manifest.
#[tactic(auto, unfolding(crate::specs::Deployments::deployment_tree))]
fn deployment_node(
    alloc: Global,
    d: &Deployment,
    publisher: &Text,
    product: &Text,
) -> Result<Node, NoMemory>
    ensures { IfOk result (λ made. tree_of made ≡ deployment_tree d.now publisher.now product.now) }
{
    let mut children = Vec::with_capacity(alloc, 4)?;
    add_child(
        &mut children,
        identity_node(alloc, "asmv1:assemblyIdentity", &d.identity)?,
    )?;
    add_child(&mut children, description_node(alloc, publisher, product)?)?;
    add_child(&mut children, terms_node(alloc, d)?)?;
    add_child(&mut children, dependency_node(alloc, d)?)?;
    Ok(root(alloc, children)?)
}

/// The text of the deployment manifest that says this, with the names of the publisher and of the
/// product. What it says is what reading can give: key parts of 1 to 240 and 1 to 64 bytes, an
/// application that is installed, a minimum that is not above the version, an age of whole hours in
/// at most nine digits of its unit, a provider that is an address, a codebase of 1 to 2,048 bytes,
/// a size of at most 4,194,304 bytes, and digests of the lengths of their algorithms. No byte of a
/// text is below 32 but tab, line feed and carriage return.
///
/// # Errors
///
/// `TooLong` has the text's length in bytes where that is above 4,194,304; a length above 2^64 - 1 is
/// told as that number. `Memory` says that memory ran out.
pub fn write_deployment(
    alloc: Global,
    d: &Deployment,
    publisher: &Text,
    product: &Text,
) -> Result<Bytes, WriteFault>
    requires facts { AreDeploymentFacts d.now }
    requires publisher { IsTrue (is_content publisher.now) }
    requires product { IsTrue (is_content product.now) }
    ensures text { IfOk result (λ text. text ≡ deployment_text d.now publisher.now product.now) }
    // Reading the text gives what it says.
    ensures facts { IfOk result (λ text. Tells deployment_of text (Ok d.now)) }
    // A text that is too long is not written.
    ensures too_long { MANIFEST_LIMIT < length (deployment_text d.now publisher.now product.now)
        → OnOk result ⊥ }
    // The fault is that the text is too long, and says how long; or memory ran out.
    ensures fault { IfErr result (IsUnwritten (deployment_text d.now publisher.now product.now)) }
{
    deployment_held(d);
    let node = deployment_node(alloc, d, publisher, product)?;
    write_tree(alloc, &node)
}
