// Reading parts that hold no value. Each function takes the bytes from a place on and gives those after the part.
ghost use Rattle.std.specs.Prelude.{◌≡◌, ◌≤◌, length, IfOk, IfSome, IsErrOf};
ghost use Rattle.manifest_tree.specs.Lexis.{white, name_byte, past, front, has_name as begins_with_name, name_at, expect as expected, upto as behind_mark, comment as comment_at, target as target_at, instruction as instruction_at, aside as aside_at, past_mark as behind_order_mark, past_declaration, begin as begin_at};
ghost use Rattle.manifest_tree.specs.Outcome.{Gives, whole, maybe};

use crate::classes::{begins_name, is_allowed, is_name, is_white};
use crate::fault::{Stop, TreeKind};

pub(crate) fn fault<T>(kind: TreeKind, rest: &[u8]) -> Result<T, Stop>
    ensures { IsErrOf result (Stop.Fault kind (length rest.now)) }
{
    Err(Stop::Fault {
        kind,
        left: rest.len(),
    })
}

// Behind the white space at the front.
pub(crate) fn past_white(bytes: &[u8]) -> &[u8]
    ensures rest { result.now ≡ past white bytes.now }
    ensures shorter { length result.now ≤ length bytes.now }
{
    let mut rest = bytes;
    while let Some((first, tail)) = rest.split_first() {
        if !is_white(*first) {
            return rest;
        }
        rest = tail;
    }
    rest
}

// Behind the name bytes at the front.
pub(crate) fn past_name(bytes: &[u8]) -> &[u8]
    ensures rest { result.now ≡ past name_byte bytes.now }
    ensures shorter { length result.now ≤ length bytes.now }
{
    let mut rest = bytes;
    while let Some((first, tail)) = rest.split_first() {
        if !is_name(*first) {
            return rest;
        }
        rest = tail;
    }
    rest
}

// The name at the front, as long as it goes, and what follows it.
pub(crate) fn split_name(bytes: &[u8]) -> (&[u8], &[u8])
    ensures name { result.0.now ≡ name_at bytes.now }
    ensures rest { result.1.now ≡ past name_byte bytes.now }
    ensures shorter { length result.1.now ≤ length bytes.now }
{
    let rest = past_name(bytes);
    (&bytes[..bytes.len() - rest.len()], rest)
}

// Whether a name begins here.
pub(crate) fn has_name(bytes: &[u8]) -> bool
    ensures { result ≡ begins_with_name bytes.now }
{
    match bytes.split_first() {
        None => false,
        Some((first, _)) => begins_name(*first),
    }
}

// Behind a fixed spelling. The fault stands at the first byte that is another.
pub(crate) fn expect<'a>(bytes: &'a [u8], mark: &[u8]) -> Result<&'a [u8], Stop>
    ensures rest { Gives whole result (expected mark.now bytes.now) }
    ensures shorter { IfOk result (λ r. length r.now ≤ length bytes.now) }
{
    let mut rest = bytes;
    for want in mark {
        match rest.split_first() {
            None => return fault(TreeKind::Syntax, rest),
            Some((first, tail)) => {
                if *first != *want {
                    return fault(TreeKind::Syntax, rest);
                }
                rest = tail;
            }
        }
    }
    Ok(rest)
}

// Behind the first mark. The fault stands at a byte that no text may hold, or at the end.
pub(crate) fn upto<'a>(bytes: &'a [u8], mark: &[u8]) -> Result<&'a [u8], Stop>
    ensures rest { Gives whole result (behind_mark mark.now bytes.now) }
    ensures shorter { IfOk result (λ r. length r.now ≤ length bytes.now) }
{
    let mut rest = bytes;
    while let Some((first, tail)) = rest.split_first() {
        if rest.starts_with(mark) {
            return Ok(&rest[mark.len()..]);
        }
        if !is_allowed(*first) {
            return fault(TreeKind::Syntax, rest);
        }
        rest = tail;
    }
    fault(TreeKind::Syntax, rest)
}

// A comment behind its `<`.
#[tactic(auto, unfolding(crate::specs::Lexis::comment))]
fn comment(bytes: &[u8]) -> Result<&[u8], Stop>
    ensures rest { Gives whole result (comment_at bytes.now) }
    ensures shorter { IfOk result (λ r. length r.now ≤ length bytes.now) }
{
    let rest = expect(bytes, b"!--")?;
    upto(rest, b"-->")
}

// Behind a name other than `xml`.
#[tactic(auto, unfolding(crate::specs::Lexis::target))]
fn target(bytes: &[u8]) -> Result<&[u8], Stop>
    ensures rest { Gives whole result (target_at bytes.now) }
    ensures shorter { IfOk result (λ r. length r.now ≤ length bytes.now) }
{
    if !has_name(bytes) {
        return fault(TreeKind::Syntax, bytes);
    }
    let (name, rest) = split_name(bytes);
    if name == b"xml".as_slice() {
        return fault(TreeKind::Syntax, rest);
    }
    Ok(rest)
}

// An instruction behind its `<`.
#[tactic(auto, unfolding(crate::specs::Lexis::instruction))]
fn instruction(bytes: &[u8]) -> Result<&[u8], Stop>
    ensures rest { Gives whole result (instruction_at bytes.now) }
    ensures shorter { IfOk result (λ r. length r.now ≤ length bytes.now) }
{
    let rest = target(expect(bytes, b"?")?)?;
    upto(rest, b"?>")
}

// A comment or an instruction behind its `<`, or none where neither begins.
pub(crate) fn aside(bytes: &[u8]) -> Result<Option<&[u8]>, Stop>
    ensures rest { Gives maybe result (aside_at bytes.now) }
    ensures shorter { IfOk result (λ o. IfSome o (λ r. length r.now ≤ length bytes.now)) }
{
    match bytes.split_first() {
        Some((b'!', _)) => Ok(Some(comment(bytes)?)),
        Some((b'?', _)) => Ok(Some(instruction(bytes)?)),
        _ => Ok(None),
    }
}

// Behind the byte order mark, where one begins.
fn past_mark(bytes: &[u8]) -> Result<&[u8], Stop>
    ensures rest { Gives whole result (behind_order_mark bytes.now) }
    ensures shorter { IfOk result (λ r. length r.now ≤ length bytes.now) }
{
    match bytes.split_first() {
        Some((239, tail)) => expect(tail, &[187, 191]),
        _ => Ok(bytes),
    }
}

// Behind the byte order mark and the declaration, where they stand.
#[tactic(auto, unfolding(crate::specs::Lexis::begin))]
pub(crate) fn begin(bytes: &[u8]) -> Result<&[u8], Stop>
    ensures rest { Gives whole result (begin_at bytes.now) }
    ensures shorter { IfOk result (λ r. length r.now ≤ length bytes.now) }
{
    past_declared(past_mark(bytes)?)
}

// Behind the declaration, where one stands.
#[tactic(auto, unfolding(crate::specs::Lexis::past_declaration))]
fn past_declared(rest: &[u8]) -> Result<&[u8], Stop>
    ensures rest { Gives whole result (past_declaration rest.now) }
    ensures shorter { IfOk result (λ r. length r.now ≤ length rest.now) }
{
    if !rest.starts_with(b"<?xml") {
        return Ok(rest);
    }
    let behind = &rest[5..];
    match behind.split_first() {
        Some((first, tail)) if is_white(*first) => upto(tail, b"?>"),
        _ => Ok(rest),
    }
}
