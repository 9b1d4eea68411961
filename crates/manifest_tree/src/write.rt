// The text of a tree.
ghost use Rattle.std.specs.Prelude.{◌≡◌, ◌<◌, length, IsTrue, OnOk, IfOk, IfErr, Err};
ghost use Rattle.std.specs.Str.{IsUtf8};
ghost use Rattle.small_types.specs.declared.limits.TheConstants as limits;
ghost use Rattle.manifest_tree.specs.declared.write.WriteFault.TheVariants.{Memory};
ghost use Rattle.manifest_tree.specs.Grammar.{Spells};
ghost use Rattle.manifest_tree.specs.Tree.{tree_of};
ghost use Rattle.manifest_tree.specs.WrittenText.{counted, element_text, written, is_writable as can_be_written, IsUnwritten};

mod escape;
mod measure;
mod node;
mod writable;

use crate::node::Node;
use measure::count_element;
use node::push_element;
use small_types::Bytes;
use small_types::limits::MANIFEST_LIMIT;
use std::alloc::{AllocError, Global};
use std::error::Error;
use std::fmt;
pub use writable::is_writable;

// What stands before the element.
const DECLARATION: &[u8; 39] = b"<?xml version=\"1.0\" encoding=\"utf-8\"?>\n";

// What stands behind it.
const END: &[u8; 1] = b"\n";

/// Why a tree is not written.
#[derive(Clone, Copy, Debug, PartialEq, Eq)]
pub enum WriteFault {
    /// The text has more than 4,194,304 bytes: how many, or 2^64 - 1 where it has more.
    TooLong { length: u64 },
    /// Memory ran out.
    Memory,
}

impl fmt::Display for WriteFault {
    fn fmt<W: fmt::Write>(&self, f: &mut fmt::Formatter<W>) -> fmt::Result {
        match self {
            WriteFault::TooLong { length } => { write!(f, "{length} bytes, over {MANIFEST_LIMIT}") }
            WriteFault::Memory => write!(f, "out of memory"),
        }
    }
}

impl Error for WriteFault {}

impl From<AllocError> for WriteFault {
    ghost from_gives = { λ _ e. e ≡ Memory };

    fn from(_: AllocError) -> Self {
        WriteFault::Memory
    }
}

// The text, which is so long.
fn text_of(alloc: Global, node: &Node, length: u64) -> Result<Bytes, AllocError>
    ensures text { IfOk result (λ text. text ≡ written (tree_of node.now)) }
    ensures utf8 { OnOk result (IsUtf8 (element_text (tree_of node.now))) }
{
    let mut text = Bytes::from_vec(Vec::with_capacity(alloc, length as usize)?);
    text.extend(DECLARATION)?;
    push_element(&mut text, node)?;
    text.extend(END)?;
    Ok(text)
}

/// The text of a tree of names and characters that a text may have, of at most 64 levels, in which
/// no element has two attributes of one name: `is_writable` tells. Reading the text gives the node.
///
/// # Errors
///
/// `TooLong` comes exactly where the text has more than 4,194,304 bytes, and has the text's length; one
/// above 2^64 - 1 is told as that number. `Memory` says that memory ran out.
pub fn write_tree(alloc: Global, node: &Node) -> Result<Bytes, WriteFault>
    requires { IsTrue (can_be_written (tree_of node.now)) }
    ensures text { IfOk result (λ text. text ≡ written (tree_of node.now)) }
    // The text spells the node.
    ensures read_back { IfOk result (λ text. Spells text node.now) }
    // A text that is too long is told as such, with its length.
    ensures too_long { let count = length (written (tree_of node.now)) in
        limits.MANIFEST_LIMIT < count → result ≡ Err (WriteFault.TooLong (counted count)) }
    // No other is.
    ensures fault { IfErr result (IsUnwritten (written (tree_of node.now))) }
{
    let around = DECLARATION.len() as u64 + END.len() as u64;
    let length = count_element(around, node);
    if length > MANIFEST_LIMIT as u64 {
        return Err(WriteFault::TooLong { length });
    }
    Ok(text_of(alloc, node, length)?)
}
