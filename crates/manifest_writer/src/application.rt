// Writing application manifests.
ghost use Rattle.std.specs.Prelude.{◌≡◌, ◌<◌, length, IfOk, IfErr, OnOk, Ok};
ghost use Rattle.small_types.specs.declared.limits.TheConstants.{MANIFEST_LIMIT};
ghost use Rattle.manifest_tree.specs.Tree.{tree_of};
ghost use Rattle.manifest_tree.specs.WrittenText.{IsUnwritten};
ghost use Rattle.manifest_parts.specs.Parts.{Tells};
ghost use Rattle.manifests.specs.Applications.{application_of};
ghost use Rattle.manifest_writer.specs.Applications.{entry_tree, application_tree, application_text};
ghost use Rattle.manifests.specs.Facts.{AreApplicationFacts};

use crate::elements::{add_child, attributes, element, element_around, root};
use crate::fault::NoMemory;
use crate::files::add_files;
use crate::held::{files_held, version_held};
use crate::identities::identity_node;
use manifest_tree::{Node, WriteFault, write_tree};
use manifests::Application;
use small_types::Bytes;
use std::alloc::Global;

// What is started.
#[tactic(auto, unfolding(crate::specs::Applications::entry_tree))]
fn entry_node(alloc: Global, a: &Application) -> Result<Node, NoMemory>
    ensures { IfOk result (λ made. tree_of made ≡ entry_tree a.now) }
{
    let named = attributes(
        alloc,
        &[
            ("file", a.entry.as_str()),
            ("parameters", a.parameters.as_str()),
        ],
    )?;
    let command = element(alloc, "commandLine", named, Vec::new(alloc))?;
    element_around(alloc, "entryPoint", command)
}

// The manifest.
#[tactic(auto, unfolding(crate::specs::Applications::application_tree))]
fn application_node(alloc: Global, a: &Application) -> Result<Node, NoMemory>
    ensures { IfOk result (λ made. tree_of made ≡ application_tree a.now) }
{
    let mut children = Vec::new(alloc);
    add_child(
        &mut children,
        identity_node(alloc, "asmv1:assemblyIdentity", &a.identity)?,
    )?;
    add_child(&mut children, entry_node(alloc, a)?)?;
    add_files(alloc, &mut children, a.files.as_slice())?;
    Ok(root(alloc, children)?)
}

/// The text of the application manifest that says this. What it says is what reading can give: key
/// parts of 1 to 240 and 1 to 64 bytes, an entry of 1 to 240 bytes and parameters of at most 2,048,
/// and at most 16,384 files, among them at most 256 data files, of names that differ. No file is
/// below `.pre`; a file has at most 268,435,456 bytes, and digests of the lengths of their
/// algorithms; a group has 1 to 240 bytes; a data file is in no group, and its name has at most 235
/// bytes. No byte of a text is below 32 but tab, line feed and carriage return.
///
/// # Errors
///
/// `TooLong` has the text's length in bytes where that is above 4,194,304; a length above 2^64 - 1 is
/// told as that number. `Memory` says that memory ran out.
pub fn write_application(alloc: Global, a: &Application) -> Result<Bytes, WriteFault>
    requires { AreApplicationFacts a.now }
    ensures text { IfOk result (λ text. text ≡ application_text a.now) }
    // Reading the text gives what it says.
    ensures facts { IfOk result (λ text. Tells application_of text (Ok a.now)) }
    // A text that is too long is not written.
    ensures too_long { MANIFEST_LIMIT < length (application_text a.now) → OnOk result ⊥ }
    // The fault is that the text is too long, and says how long; or memory ran out.
    ensures fault { IfErr result (IsUnwritten (application_text a.now)) }
{
    version_held(a.identity.version);
    files_held(a.files.as_slice());
    let node = application_node(alloc, a)?;
    write_tree(alloc, &node)
}
