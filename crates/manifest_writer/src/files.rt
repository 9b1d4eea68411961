// The elements of files.
ghost use Rattle.std.specs.Prelude.{◌≡◌, ◌++◌, map, IfOk, OnOk, string_bytes};
ghost use Rattle.manifest_tree.specs.Tree.{tree_of};
ghost use Rattle.manifest_writer.specs.Applications.{backslashed, own_attributes, file_attributes, file_tree};

use crate::digests::add_hashes;
use crate::elements::{add_attribute, add_child, attributes, element};
use crate::fault::NoMemory;
use itoa::Buffer;
use manifest_tree::{Attribute, Node};
use manifests::FileEntry;
use small_types::Name;
use std::alloc::Global;

// The name with backslashes for slashes.
pub(crate) fn with_backslashes(alloc: Global, name: &str) -> Result<String, NoMemory>
    ensures { IfOk result (λ made. string_bytes made ≡ backslashed name.now) }
{
    let mut made = String::with_capacity(alloc, name.len())?;
    let mut rest = name;
    while let Some((part, others)) = rest.split_once('/') {
        made.push_str(part)?;
        made.push('\\')?;
        rest = others;
    }
    made.push_str(rest)?;
    Ok(made)
}

// The name and the size of a file.
fn own_attributes(alloc: Global, name: &Name, size: u64) -> Result<Vec<Attribute>, NoMemory>
    ensures { IfOk result (λ made. made.items ≡ own_attributes name.now size) }
{
    let held = with_backslashes(alloc, name.as_str())?;
    let mut buffer = Buffer::new();
    attributes(
        alloc,
        &[("name", held.as_str()), ("size", buffer.format(size))],
    )
}

// The attributes of a file.
fn file_attributes(alloc: Global, entry: &FileEntry) -> Result<Vec<Attribute>, NoMemory>
    ensures { IfOk result (λ made. made.items ≡ file_attributes entry.now) }
{
    let mut made = own_attributes(alloc, &entry.name, entry.size)?;
    if entry.local {
        add_attribute(alloc, &mut made, "writeableType", "applicationData")?;
        return Ok(made);
    }
    if let Some(group) = &entry.group {
        add_attribute(alloc, &mut made, "optional", "true")?;
        add_attribute(alloc, &mut made, "group", group.as_str())?;
    }
    Ok(made)
}

// The element of a file.
#[tactic(auto, unfolding(crate::specs::Applications::file_tree))]
fn file_node(alloc: Global, entry: &FileEntry) -> Result<Node, NoMemory>
    ensures { IfOk result (λ made. tree_of made ≡ file_tree entry.now) }
{
    let named = file_attributes(alloc, entry)?;
    let mut children = Vec::new(alloc);
    add_hashes(alloc, &mut children, entry.list.as_slice())?;
    element(alloc, "file", named, children)
}

// Adds the elements of files.
pub(crate) fn add_files(
    alloc: Global,
    children: &mut Vec<Node>,
    files: &[FileEntry],
) -> Result<(), NoMemory>
    ensures { OnOk result
        (map tree_of children.new.items
        ≡ map tree_of children.old.items ++ map file_tree files.now) }
{
    for entry in files {
        add_child(children, file_node(alloc, entry)?)?;
    }
    Ok(())
}
