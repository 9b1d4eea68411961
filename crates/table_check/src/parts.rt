// Whether texts, versions and moments are within their limits.
ghost use Rattle.std.specs.Prelude.{◌↔◌, ◌≤◌, ◌<◌, ◌^◌, All, IfSome, IsTrue};
ghost use Rattle.small_types.specs.declared.limits.TheConstants as limits;
ghost use Rattle.identity.specs.Version.{IsVersion};
ghost use Rattle.machine.specs.Fields.{IsShort, IsShortKey, IsTarget};

use identity::{Key, Version};
use small_types::limits::{IDENTITY_PART_LIMIT, NAME_LIMIT, NUMBER_LIMIT, URL_LIMIT};
use small_types::{Target, Text};

// Whether the text is within the limit.
fn is_short(text: &Text, limit: usize) -> bool
    ensures { IsTrue result ↔ IsShort limit text.now }
{
    text.as_bytes().len() <= limit
}

// Whether each text is.
pub(crate) fn are_short(texts: &[Text], limit: usize) -> bool
    ensures { IsTrue result ↔ All (IsShort limit) texts.now }
{
    for text in texts {
        if !is_short(text, limit) {
            return false;
        }
    }
    true
}

// Whether each part of the key is within its limit.
pub(crate) fn is_short_key(key: &Key) -> bool
    ensures { IsTrue result ↔ IsShortKey key.now }
{
    is_short(&key.name, NAME_LIMIT)
        && is_short(&key.token, IDENTITY_PART_LIMIT)
        && is_short(&key.language, IDENTITY_PART_LIMIT)
        && is_short(&key.architecture, IDENTITY_PART_LIMIT)
}

// Each number of 16 bits is one.
fn is_port(port: u16) -> bool
    ensures { IsTrue result ↔ port < 2 ^ 16 }
{
    port <= 65_535
}

// Whether the host and the path are within their limits.
fn is_target(target: &Target) -> bool
    ensures { IsTrue result ↔ IsTarget target.now }
{
    is_port(target.port) && is_short(&target.host, URL_LIMIT) && is_short(&target.path, URL_LIMIT)
}

pub(crate) fn is_some_target(target: &Option<Target>) -> bool
    ensures { IsTrue result ↔ IfSome target.now IsTarget }
{
    match target {
        Some(target) => is_target(target),
        None => true,
    }
}

// Each version is one.
fn is_version(version: Version) -> bool
    ensures { IsTrue result ↔ IsVersion version }
{
    is_port(version.a) && is_port(version.b) && is_port(version.c) && is_port(version.d)
}

pub(crate) fn is_some_version(version: Option<Version>) -> bool
    ensures { IsTrue result ↔ IfSome version IsVersion }
{
    match version {
        Some(version) => is_version(version),
        None => true,
    }
}

// Whether the moment is within its limit, where there is one.
pub(crate) fn is_some_moment(moment: Option<u64>) -> bool
    ensures { IsTrue result ↔ IfSome moment (λ moment. moment ≤ limits.NUMBER_LIMIT) }
{
    match moment {
        Some(moment) => moment <= NUMBER_LIMIT,
        None => true,
    }
}
