// The address that a text or a URL stands for.
ghost use Rattle.std.specs.Prelude.{◌≡◌, ◌++◌, None, IfOk};
ghost use Rattle.url.specs.Parts.{IsValid, has_credentials};
ghost use Rattle.url.specs.Parser.{parse_url};
ghost use Rattle.addresses.specs.Address as spec;
ghost use Rattle.addresses.specs.Address.{Gives, IsAddress, address, is_refused, query_text, target_of_text, target_of_url, url_of};

use crate::UrlFault;
use small_types::limits::URL_LIMIT;
use small_types::{Target, Text};
use std::alloc::{AllocError, Global};
use url::Url;

/// The port of an address that names none (RFC 9110, section 4.2.1).
pub const HTTP_PORT: u16 = 80;

// The URL that the text is.
pub(crate) fn parse(alloc: Global, text: &str) -> Result<Url, UrlFault>
    ensures { Gives result (url_of (parse_url None text.now)) }
{
    Ok(Url::parse(alloc, text)?)
}

// A text of its own.
fn own(alloc: Global, text: &str) -> Result<Text, AllocError>
    ensures { IfOk result (λ t. t ≡ text.now) }
{
    Ok(Text::from_string(String::from_str(alloc, text)?))
}

// Whether the URL is longer than an address may be.
#[tactic(auto, unfolding(crate::specs::Address::is_too_long))]
pub(crate) fn is_too_long(url: &Url) -> bool
    ensures value { result ≡ spec.is_too_long url.now }
    ensures valid { IsValid url.now }
{
    url.as_str().len() > URL_LIMIT
}

// Whether there is a user name or a password.
fn names_user(url: &Url) -> bool
    ensures { result ≡ has_credentials url.now }
{
    !url.username().is_empty() || url.password().is_some()
}

// Whether the URL is no address whatever its scheme.
#[tactic(auto, unfolding(crate::specs::Address::is_refused))]
fn is_bad(url: &Url) -> bool
    ensures { result ≡ is_refused url.now }
{
    is_too_long(url) || names_user(url) || url.host_str().is_none()
}

// The path and the query.
fn request_path(alloc: Global, url: &Url) -> Result<Text, AllocError>
    ensures { IfOk result (λ t. t ≡ url.now.path ++ query_text url.now.query) }
{
    let path = url.path();
    let Some(query) = url.query() else {
        return own(alloc, path);
    };
    Ok(Text::from_string(format!(in alloc; "{path}?{query}")?))
}

// What is asked of which host, by a URL that is an address.
#[tactic(auto, unfolding(crate::specs::Address::address))]
pub(crate) fn address_of(alloc: Global, url: &Url) -> Result<Target, AllocError>
    ensures { IfOk result (λ target. target ≡ address url.now) }
{
    Ok(Target {
        host: own(alloc, url.host_str().unwrap_or(""))?,
        port: url.port().unwrap_or(HTTP_PORT),
        path: request_path(alloc, url)?,
    })
}

// The address that the URL stands for.
#[tactic(auto, unfolding(crate::specs::Address::target_of_url))]
pub(crate) fn target_of_parsed(alloc: Global, url: &Url) -> Result<Target, UrlFault>
    ensures exact { Gives result (target_of_url url.now) }
    ensures address { IfOk result IsAddress }
{
    if is_bad(url) {
        return Err(UrlFault::BadUrl);
    }
    if url.scheme() != "http" {
        return Err(UrlFault::NotHttp {
            scheme: own(alloc, url.scheme())?,
        });
    }
    Ok(address_of(alloc, url)?)
}

/// The address that the bytes spell: a URL by the URL Standard. `BadUrl` comes exactly where they are no UTF-8 or no
/// URL, where they or the URL as it is written, its fragment included, are longer than 2,048 bytes, or where it has a
/// non-empty user name or password, or no host. Else `NotHttp` comes exactly where its scheme is not `http`. The port
/// is 80 where the URL has none; the path includes the query with its `?`; a fragment is dropped. `Memory` may come
/// at any bytes.
#[tactic(auto, unfolding(crate::specs::Address::target_of_text))]
pub fn target_of(alloc: Global, text: &[u8]) -> Result<Target, UrlFault>
    ensures exact { Gives result (target_of_text text.now) }
    ensures address { IfOk result IsAddress }
{
    if text.len() > URL_LIMIT {
        return Err(UrlFault::BadUrl);
    }
    let Ok(text) = str::from_utf8(text) else {
        return Err(UrlFault::BadUrl);
    };
    let url = parse(alloc, text)?;
    target_of_parsed(alloc, &url)
}
