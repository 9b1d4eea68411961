// Tags.
ghost use Rattle.std.specs.Prelude.{◌≡◌, ◌<◌, ◌≤◌, ◌+◌, [], List, ℕ, length, IfOk, IfErr, Ok, nat_lt, ◌||◌, if◌then◌else◌};
ghost use Rattle.std.specs.Str.{bytes_eq};
ghost use Rattle.manifest_tree.specs.Lexis.{name_byte, past, name_at, is_among, quote_in as quote_inside, quote_at, attribute_at, tag_turn as turn_of, end_at};
ghost use Rattle.manifest_tree.specs.Spots.{OpenTree, names_of, in_tag};
ghost use Rattle.manifest_tree.specs.Outcome.{Gives, Leads, whole, found_at};
ghost use Rattle.manifest_tree.specs.Pieces.{turn_and_rest, tag_spot, has_late, HasLate};

use crate::fault::{Stop, TreeKind};
use crate::node::Attribute;
use crate::scan::{expect, fault, has_name, past_white, split_name};
use crate::units::{read_value, text_of};
use small_types::Text;
use std::alloc::Global;
use std::collections::BTreeMap;

// What comes next in a start tag: an attribute, with its name and its quote, or the tag's end.
#[derive(Clone, Copy)]
pub(crate) enum Turn<'a> {
    Attribute { name: &'a [u8], quote: u8 },
    Opens,
    Closes,
}

// A start tag; a closed one ends in `/>`.
#[derive(Drop)]
pub(crate) struct Tag {
    pub(crate) name: Text,
    pub(crate) attributes: Vec<Attribute>,
    pub(crate) closed: bool,
}

// So many names of a tag are looked through one by one. Those behind them stand in a map too, by which a tag with many
// attributes takes no more than a look-up for each.
const FEW: usize = 8;

// Whether one of the attributes has the name.
fn is_one_of(seen: &[Attribute], name: &[u8]) -> bool
    ensures { result ≡ is_among (names_of seen.now) name.now }
{
    for attribute in seen {
        if attribute.name.as_bytes() == name {
            return true;
        }
    }
    false
}

// The same for all attributes of a tag, where the map has the names behind the first few.
fn is_taken(seen: &[Attribute], late: &BTreeMap<&[u8], ()>, name: &[u8]) -> bool
    requires { HasLate late.now seen.now }
    ensures { result ≡ is_among (names_of seen.now) name.now }
{
    if seen.len() <= FEW {
        return is_one_of(seen, name);
    }
    is_one_of(&seen[..FEW], name) || late.contains_key(name)
}

// The map with the name too, if it stands behind the first few.
fn keep<'a>(late: &mut BTreeMap<&'a [u8], ()>, place: usize, name: &'a [u8]) -> Result<(), Stop>
    ensures kept { IfOk result (λ _. (q : List ℕ)
        → has_late late.new q
        ≡ (if nat_lt place 8 then has_late late.old q else
        (bytes_eq name.now q || has_late late.old q))) }
    ensures only_memory { IfErr result (λ e. e ≡ Stop.Memory) }
{
    if place < FEW {
        return Ok(());
    }
    let _ = late.insert(name, ())?;
    Ok(())
}

// The quote at the front.
fn quote_in(bytes: &[u8]) -> Result<(u8, &[u8]), Stop>
    ensures quote { Gives found_at result (quote_inside bytes.now) }
    ensures shorter { IfOk result (λ x. length x.1.now < length bytes.now) }
{
    match bytes.split_first() {
        Some((34, tail)) => Ok((34, tail)),
        Some((39, tail)) => Ok((39, tail)),
        _ => fault(TreeKind::Syntax, bytes),
    }
}

// The quote that opens a value, behind the name of its attribute, and what follows the quote.
#[tactic(auto, unfolding(crate::specs::Lexis::quote_at))]
fn quote_of(bytes: &[u8]) -> Result<(u8, &[u8]), Stop>
    ensures quote { Gives found_at result (quote_at bytes.now) }
    ensures shorter { IfOk result (λ x. length x.1.now < length bytes.now) }
{
    let rest = expect(past_white(bytes), b"=")?;
    quote_in(past_white(rest))
}

// An attribute behind white space, up to the quote of its value.
#[tactic(auto, unfolding(crate::specs::Lexis::attribute_at))]
fn attribute_turn<'a>(
    bytes: &'a [u8],
    seen: &[Attribute],
    late: &BTreeMap<&[u8], ()>,
) -> Result<(Turn<'a>, &'a [u8]), Stop>
    requires { HasLate late.now seen.now }
    ensures turn { Gives turn_and_rest result (attribute_at (names_of seen.now) bytes.now) }
    ensures shorter { IfOk result (λ x. length x.1.now < length bytes.now) }
{
    if !has_name(bytes) {
        return fault(TreeKind::Syntax, bytes);
    }
    let (name, rest) = split_name(bytes);
    if is_taken(seen, late, name) {
        return fault(TreeKind::AttributeTwice, bytes);
    }
    let (quote, rest) = quote_of(rest)?;
    Ok((Turn::Attribute { name, quote }, rest))
}

// What comes next in a tag with these attributes so far, and what follows it.
fn tag_turn<'a>(
    bytes: &'a [u8],
    seen: &[Attribute],
    late: &BTreeMap<&[u8], ()>,
) -> Result<(Turn<'a>, &'a [u8]), Stop>
    requires { HasLate late.now seen.now }
    ensures turn { Gives turn_and_rest result (turn_of (names_of seen.now) bytes.now) }
    ensures shorter { IfOk result (λ x. length x.1.now < length bytes.now) }
{
    let rest = past_white(bytes);
    let Some((first, tail)) = rest.split_first() else {
        return fault(TreeKind::Syntax, rest);
    };
    if *first == b'>' {
        return Ok((Turn::Opens, tail));
    }
    if *first == b'/' {
        let behind = expect(tail, b">")?;
        return Ok((Turn::Closes, behind));
    }
    if rest.len() == bytes.len() {
        return fault(TreeKind::Syntax, rest);
    }
    attribute_turn(rest, seen, late)
}

// The start tag whose name begins here, and what follows the tag.
pub(crate) fn read_tag(alloc: Global, bytes: &[u8]) -> Result<(Tag, &[u8]), Stop>
    ensures leads { (around : List OpenTree) → Leads (λ x. (tag_spot x.0 around, x.1.now))
        (in_tag (name_at bytes.now) [] around) (past name_byte bytes.now) result }
    ensures shorter { IfOk result (λ x. length x.1.now < length bytes.now) }
{
    let (name, after) = split_name(bytes);
    let name = text_of(alloc, name)?;
    let mut attributes: Vec<Attribute> = Vec::new(alloc);
    let mut late: BTreeMap<&[u8], ()> = BTreeMap::new(alloc);
    let mut rest = after;
    'attributes: loop {
        let (turn, tail) = tag_turn(rest, attributes.as_slice(), &late)?;
        match turn {
            Turn::Opens => {
                let closed = false;
                let tag = Tag {
                    name,
                    attributes,
                    closed,
                };
                return Ok((tag, tail));
            }
            Turn::Closes => {
                let closed = true;
                let tag = Tag {
                    name,
                    attributes,
                    closed,
                };
                return Ok((tag, tail));
            }
            Turn::Attribute { name: of, quote } => {
                keep(&mut late, attributes.len(), of)?;
                let of = text_of(alloc, of)?;
                let (value, behind) = read_value(alloc, tail, quote)?;
                attributes.push(Attribute { name: of, value })?;
                rest = behind;
            }
        }
    }
}

// Behind the end tag of the element with this name. The bytes begin behind `</`; so many stand from the tag's `<` on.
#[tactic(auto, unfolding(crate::specs::Lexis::end_at))]
pub(crate) fn end_tag<'a>(bytes: &'a [u8], name: &[u8], left: usize) -> Result<&'a [u8], Stop>
    ensures rest { Gives whole result (end_at name.now left bytes.now) }
    ensures shorter { IfOk result (λ r. length r.now ≤ length bytes.now) }
{
    if !has_name(bytes) {
        return fault(TreeKind::Syntax, bytes);
    }
    let (found, rest) = split_name(bytes);
    if found != name {
        return Err(Stop::Fault {
            kind: TreeKind::TagMismatch,
            left,
        });
    }
    expect(past_white(rest), b">")
}
