// Reading what a deployment manifest says, from the left.
ghost use Rattle.std.specs.Prelude.{◌≡◌, ◌≤◌, length, IfOk, IfErr};
ghost use Rattle.record_fields.specs.Readers.{Gives, IsFaultWithin};
ghost use Rattle.record_fields.specs.Records.{deployment_at, joined, listed_at, terms_at};

use crate::CodecFault;
use crate::digest_readers::digests_here;
use crate::field_readers::{text_here, u64_here};
use crate::form_readers::{rule_here, truth_here};
use crate::option_readers::{text_option_here, version_option_here};
use crate::part_readers::identity_here;
use digest_list::DigestList;
use identity::{Identity, Version};
use manifests::{Deployment, Rule};
use small_types::Text;
use small_types::limits::URL_LIMIT;
use std::alloc::Global;

// What comes before the codebase.
#[derive(Drop)]
pub(crate) struct Terms {
    identity: Identity,
    install: bool,
    minimum: Option<Version>,
    mapped: bool,
    rule: Rule,
    provider: Option<Text>,
}

// What comes from the codebase on.
#[derive(Drop)]
pub(crate) struct Listed {
    codebase: Text,
    app: Identity,
    app_size: u64,
    app_list: DigestList,
}

// What comes before the codebase, at the place, and the place behind it.
#[tactic(auto, unfolding(crate::specs::Records::terms_at))]
fn terms_here(alloc: Global, bytes: &[u8], place: usize) -> Result<(Terms, usize), CodecFault>
    requires { place ≤ length bytes.now }
    ensures exact { Gives result (terms_at bytes.now place) }
    ensures next { IfOk result (λ x. x.1 ≤ length bytes.now) }
    ensures fault { IfErr result (IsFaultWithin (length bytes.now)) }
{
    let (identity, next) = identity_here(alloc, bytes, place)?;
    let (install, next) = match truth_here(bytes, next) {
        Ok(found) => found,
        Err(fault) => {
            drop(identity);
            return Err(fault);
        }
    };
    let (minimum, next) = match version_option_here(bytes, next) {
        Ok(found) => found,
        Err(fault) => {
            drop(identity);
            return Err(fault);
        }
    };
    let (mapped, next) = match truth_here(bytes, next) {
        Ok(found) => found,
        Err(fault) => {
            drop(identity);
            return Err(fault);
        }
    };
    let (rule, next) = match rule_here(bytes, next) {
        Ok(found) => found,
        Err(fault) => {
            drop(identity);
            return Err(fault);
        }
    };
    let (provider, next) = match text_option_here(alloc, bytes, next, URL_LIMIT) {
        Ok(found) => found,
        Err(fault) => {
            drop(identity);
            return Err(fault);
        }
    };
    let terms = Terms {
        identity,
        install,
        minimum,
        mapped,
        rule,
        provider,
    };
    Ok((terms, next))
}

// What comes from the codebase on, at the place, and the place behind it.
#[tactic(auto, unfolding(crate::specs::Records::listed_at))]
fn listed_here(alloc: Global, bytes: &[u8], place: usize) -> Result<(Listed, usize), CodecFault>
    requires { place ≤ length bytes.now }
    ensures exact { Gives result (listed_at bytes.now place) }
    ensures next { IfOk result (λ x. x.1 ≤ length bytes.now) }
    ensures fault { IfErr result (IsFaultWithin (length bytes.now)) }
{
    let (codebase, next) = text_here(alloc, bytes, place, URL_LIMIT)?;
    let (app, next) = identity_here(alloc, bytes, next)?;
    let (app_size, next) = match u64_here(bytes, next) {
        Ok(found) => found,
        Err(fault) => {
            drop(app);
            return Err(fault);
        }
    };
    let (app_list, next) = match digests_here(alloc, bytes, next) {
        Ok(found) => found,
        Err(fault) => {
            drop(app);
            return Err(fault);
        }
    };
    let listed = Listed {
        codebase,
        app,
        app_size,
        app_list,
    };
    Ok((listed, next))
}

// The whole of the two.
fn joined(terms: Terms, listed: Listed) -> Deployment
    ensures { result ≡ joined terms listed }
{
    Deployment {
        identity: terms.identity,
        install: terms.install,
        minimum: terms.minimum,
        mapped: terms.mapped,
        rule: terms.rule,
        provider: terms.provider,
        codebase: listed.codebase,
        app: listed.app,
        app_size: listed.app_size,
        app_list: listed.app_list,
    }
}

// What a deployment manifest says, at the place, and the place behind it.
#[tactic(auto, unfolding(crate::specs::Records::deployment_at))]
pub(crate) fn deployment_here(
    alloc: Global,
    bytes: &[u8],
    place: usize,
) -> Result<(Deployment, usize), CodecFault>
    requires { place ≤ length bytes.now }
    ensures exact { Gives result (deployment_at bytes.now place) }
    ensures next { IfOk result (λ x. x.1 ≤ length bytes.now) }
    ensures fault { IfErr result (IsFaultWithin (length bytes.now)) }
{
    let (terms, next) = terms_here(alloc, bytes, place)?;
    let (listed, next) = match listed_here(alloc, bytes, next) {
        Ok(found) => found,
        Err(fault) => {
            drop(terms);
            return Err(fault);
        }
    };
    Ok((joined(terms, listed), next))
}
