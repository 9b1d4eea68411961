// The whole text.
ghost use Rattle.std.specs.Prelude.{◌≡◌, ◌<◌, ◌≤◌, ◌^◌, [], length, IfOk, IfErr};
ghost use Rattle.std.specs.Str.{IsUtf8};
ghost use Rattle.small_types.specs.declared.limits.TheConstants as limits;
ghost use Rattle.manifest_tree.specs.Grammar.{Spells, SpellsTree};
ghost use Rattle.manifest_tree.specs.Refusals.{Refuses, Answers};
ghost use Rattle.manifest_tree.specs.Lexis.{name_byte, past, name_at};
ghost use Rattle.manifest_tree.specs.Spots.{start as begun, before, in_tag, behind};
ghost use Rattle.manifest_tree.specs.Outcome.{Leads};
ghost use Rattle.manifest_tree.specs.Pieces.{spot_of};
ghost use Rattle.manifest_tree.specs.Tree.{Tree, tree_of};

use crate::classes::is_white;
use crate::content::read_turn;
use crate::fault::{Stop, TreeError, TreeFault, TreeKind};
use crate::node::Node;
use crate::open_element::{Position, start};
use crate::scan::{aside, begin, fault, has_name};
use crate::tag::read_tag;
use small_types::limits::MANIFEST_LIMIT;
use std::alloc::Global;

// What stands from the root's name on, behind white space, comments and instructions.
fn root_at(bytes: &[u8]) -> Result<&[u8], Stop>
    ensures leads { Leads (λ r. (in_tag (name_at r.now) [] [], past name_byte r.now)) before
        bytes.now result }
    ensures shorter { IfOk result (λ r. length r.now ≤ length bytes.now) }
{
    let mut rest = bytes;
    while let Some((first, tail)) = rest.split_first() {
        if is_white(*first) {
            rest = tail;
            continue;
        }
        if *first != b'<' {
            return fault(TreeKind::Syntax, rest);
        }
        match aside(tail)? {
            Some(after) => rest = after,
            None => {
                if !has_name(tail) {
                    return fault(TreeKind::Syntax, tail);
                }
                return Ok(tail);
            }
        }
    }
    fault(TreeKind::Syntax, rest)
}

// White space, comments and instructions up to the end.
fn end_of(bytes: &[u8]) -> Result<(), Stop>
    ensures { (t : Tree) → Leads (λ _. (behind t, [])) (behind t) bytes.now result }
{
    let mut rest = bytes;
    while let Some((first, tail)) = rest.split_first() {
        if is_white(*first) {
            rest = tail;
            continue;
        }
        if *first != b'<' {
            return fault(TreeKind::Syntax, rest);
        }
        match aside(tail)? {
            Some(after) => rest = after,
            None => return fault(TreeKind::Syntax, tail),
        }
    }
    Ok(())
}

// The root, whose name begins here, and what follows it.
fn read_root(alloc: Global, bytes: &[u8]) -> Result<(Node, &[u8]), Stop>
    requires { length bytes.now < 2 ^ 32 }
    ensures { Leads (λ x. (behind (tree_of x.0), x.1.now)) (in_tag (name_at bytes.now) [] [])
        (past name_byte bytes.now) result }
{
    let (tag, after) = read_tag(alloc, bytes)?;
    let position = start(alloc, None, tag)?;
    read_content(alloc, position, after)
}

// What follows up to the root's end.
fn read_content(alloc: Global, position: Position, bytes: &[u8]) -> Result<(Node, &[u8]), Stop>
    requires { length bytes.now < 2 ^ 32 }
    ensures { Leads (λ x. (behind (tree_of x.0), x.1.now)) (spot_of position) bytes.now result }
{
    let mut spot = position;
    let mut rest = bytes;
    'turns: loop {
        match spot {
            Position::Behind(root) => return Ok((root, rest)),
            Position::Inside(stack) => {
                let (next, after) = read_turn(alloc, stack, rest)?;
                spot = next;
                rest = after;
            }
        }
    }
}

fn read_text(alloc: Global, bytes: &[u8]) -> Result<Node, Stop>
    requires { length bytes.now < 2 ^ 32 }
    ensures { Leads (λ node. (behind (tree_of node), [])) begun bytes.now result }
{
    let start = begin(bytes)?;
    let name = root_at(start)?;
    let (root, rest) = read_root(alloc, name)?;
    end_of(rest)?;
    Ok(root)
}

// The refusal at a place.
fn refusal(kind: TreeKind, place: usize) -> TreeError
    ensures { result ≡ TreeError.Refused (record { kind = kind; place = place }) }
{
    TreeError::Refused {
        fault: TreeFault {
            kind,
            place: place as u64,
        },
    }
}

// The tree of a text that is UTF-8 and not too long.
fn tree_in(alloc: Global, bytes: &[u8]) -> Result<Node, TreeError>
    requires short { length bytes.now ≤ limits.MANIFEST_LIMIT }
    requires utf8 { IsUtf8 bytes.now }
    ensures spelled { IfOk result (λ node. Spells bytes.now node) }
    ensures only { (t : Tree) → SpellsTree bytes.now t → Answers t result }
    ensures refused { IfErr result (λ e. Refuses bytes.now e) }
{
    match read_text(alloc, bytes) {
        Ok(root) => Ok(root),
        Err(Stop::NotText) => unreachable!(),
        Err(Stop::Memory) => Err(TreeError::Memory),
        Err(Stop::Fault { kind, left }) => Err(refusal(kind, bytes.len().saturating_sub(left))),
    }
}

/// The tree that the text spells.
///
/// # Errors
///
/// `Refused` has the text's first fault; `Memory` says that memory ran out.
pub fn read_tree(alloc: Global, bytes: &[u8]) -> Result<Node, TreeError>
    // What is answered is spelled.
    ensures spelled { IfOk result (λ node. Spells bytes.now node) }
    // What is spelled is answered, unless memory runs out.
    ensures only { (t : Tree) → SpellsTree bytes.now t → Answers t result }
    // A refusal is the text's.
    ensures refused { IfErr result (λ e. Refuses bytes.now e) }
{
    if bytes.len() > MANIFEST_LIMIT {
        return Err(refusal(TreeKind::TooLong, MANIFEST_LIMIT));
    }
    match std::str::from_utf8(bytes) {
        Ok(_) => tree_in(alloc, bytes),
        Err(error) => Err(refusal(TreeKind::NotUtf8, error.valid_up_to())),
    }
}
