// Attributes of an element, looked up by their local name and read.
ghost use Rattle.std.specs.Prelude.{codes};
ghost use Rattle.manifest_tree.specs.Tree.{tree_of};
ghost use Rattle.manifest_parts.specs.Elements.{attribute as attribute_of};
ghost use Rattle.manifest_parts.specs.Outcome.{Gives, text_at};
ghost use Rattle.manifest_parts.specs.Values.{needed as needed_value, size_of as size_value, truth as truth_value};

use manifest_parts::{ManifestFault, attribute, needed, size, truth};
use manifest_tree::Node;
use small_types::Text;
use std::alloc::Global;

/// The value of an attribute that must be there: `Missing` where it is not.
pub(crate) fn needed_attribute<'a>(
    alloc: Global,
    node: &'a Node,
    name: &str,
) -> Result<&'a Text, ManifestFault>
    ensures { Gives text_at result
        (needed_value name.now (attribute_of name.now (tree_of node.now))) }
{
    needed(alloc, name, attribute(node, name))
}

/// The truth value of an attribute, or the default where there is none: `BadValue` for any other text.
pub(crate) fn truth_attribute(
    alloc: Global,
    node: &Node,
    name: &str,
    default: bool,
) -> Result<bool, ManifestFault>
    ensures { Gives (λ b. b) result
        (truth_value name.now default (attribute_of name.now (tree_of node.now))) }
{
    truth(alloc, name, default, attribute(node, name))
}

/// The size in bytes of an element, at most the limit: `Missing` where there is none, `BadValue` for any other text.
pub(crate) fn size_attribute(alloc: Global, node: &Node, limit: u64) -> Result<u64, ManifestFault>
    ensures { Gives (λ n. n) result
        (size_value limit (attribute_of (codes "size") (tree_of node.now))) }
{
    size(alloc, limit, attribute(node, "size"))
}
