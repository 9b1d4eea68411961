// The addresses beside another one.
ghost use Rattle.std.specs.Prelude.{◌≡◌, ◌≢◌, ◌⊎◌, ℕ, List, [], Err, IfOk, Ok, Some, codes, string_bytes, if◌then◌else◌};
ghost use Rattle.url.specs.Parser.{parse_url};
ghost use Rattle.small_types.specs.declared.target.Target.{Target};
ghost use Rattle.small_types.specs.Name.{IsName};
ghost use Rattle.addresses.specs.declared.fault.UrlFault.TheVariants.{BadUrl, Memory, NotHttp};
ghost use Rattle.addresses.specs.Address.{Gives, IsAddress, http, url_of};
ghost use Rattle.addresses.specs.Join as spec;
ghost use Rattle.addresses.specs.Join.{IsUnreachable, app_target_of, base_of, file_target_beside, file_target_of, resolved};

use crate::UrlFault;
use crate::address::{address_of, is_too_long, parse, target_of_parsed};
use identity::word_escape;
use small_types::{Name, PrintFault, Target, Text};
use std::alloc::{AllocError, Global};
use url::Url;

// `http://HOST:PORT` and the path.
#[tactic(auto, unfolding(crate::specs::Join::target_text))]
fn target_text(alloc: Global, target: &Target) -> Result<Text, AllocError>
    ensures { IfOk result (λ text. text ≡ spec.target_text target.now) }
{
    let host = target.host.as_str();
    let port = target.port;
    let path = target.path.as_str();
    Ok(Text::from_string(format!(in alloc; "http://{host}:{port}{path}")?))
}

// The URL of an address.
pub(crate) fn base_url(alloc: Global, base: &Target) -> Result<Url, UrlFault>
    ensures { Gives result (base_of base.now) }
{
    let text = target_text(alloc, base)?;
    parse(alloc, text.as_str())
}

// The URL of a reference that stands in a document at the base.
#[tactic(auto, unfolding(crate::specs::Join::resolved))]
fn resolve(alloc: Global, base: &Target, reference: &str) -> Result<Url, UrlFault>
    ensures { Gives result (resolved base.now reference.now) }
{
    let document = base_url(alloc, base)?;
    Ok(document.join(reference)?)
}

/// The address of the codebase that stands in a deployment manifest at the base: a URL, or a path that is joined to
/// the base's. `BadUrl` comes exactly where the base, as it is written, or the joined one is no URL, or where
/// `target_of` refuses the joined one, as a URL writes it, so; else `NotHttp` comes exactly where its scheme is not
/// `http`. `Memory` may come at any codebase.
#[tactic(auto, unfolding(crate::specs::Join::app_target_of))]
pub fn app_target(alloc: Global, base: &Target, codebase: &Text) -> Result<Target, UrlFault>
    ensures exact { Gives result (app_target_of base.now codebase.now) }
    ensures address { IfOk result IsAddress }
{
    let url = resolve(alloc, base, codebase.as_str())?;
    target_of_parsed(alloc, &url)
}

// What the address of a file ends in.
fn ending(mapped: bool) -> &'static str
    ensures { result.now ≡ (if mapped then codes ".deploy" else []) }
{
    if mapped { ".deploy" } else { "" }
}

// The name as a relative address.
#[tactic(auto, unfolding(crate::specs::Join::file_reference))]
fn file_reference(alloc: Global, mapped: bool, name: &[u8]) -> Result<String, PrintFault>
    ensures { IfOk result (λ text. string_bytes text ≡ spec.file_reference mapped name.now) }
{
    let word = word_escape(alloc, name)?;
    let word = word.as_str();
    let ending = ending(mapped);
    Ok(format!(in alloc; "{word}{ending}")?)
}

// The address that the URL is, within the limit.
#[tactic(auto, unfolding(crate::specs::Join::short_address))]
fn short_address(alloc: Global, url: &Url) -> Result<Target, UrlFault>
    ensures exact { Gives result (spec.short_address url.now) }
    ensures address { url.now.scheme ≡ http → IfOk result IsAddress }
{
    if is_too_long(url) {
        return Err(UrlFault::BadUrl);
    }
    Ok(address_of(alloc, url)?)
}

// The URL of the file of that name, beside the document.
fn file_url(alloc: Global, document: &Url, mapped: bool, name: &[u8]) -> Result<Url, UrlFault>
    ensures { Gives result (url_of (parse_url (Some document.now)
        (spec.file_reference mapped name.now))) }
{
    let reference = file_reference(alloc, mapped, name)?;
    Ok(document.join(reference.as_str())?)
}

// The address of the file of that name, beside the document.
#[tactic(auto, unfolding(crate::specs::Join::file_target_beside))]
pub(crate) fn file_beside(
    alloc: Global,
    document: &Url,
    mapped: bool,
    name: &[u8],
) -> Result<Target, UrlFault>
    ensures exact { Gives result (file_target_beside document.now mapped name.now) }
    ensures address { (base : Target) → base_of base ≡ Ok document.now → IsName name.now
        → IfOk result IsAddress }
{
    let url = file_url(alloc, document, mapped, name)?;
    short_address(alloc, &url)
}

// The address of the file of that name.
fn file_address(alloc: Global, base: &Target, mapped: bool, name: &[u8]) -> Result<Target, UrlFault>
    ensures exact { Gives result (file_target_of base.now mapped name.now) }
    ensures address { IsName name.now → IfOk result IsAddress }
{
    let document = match base_url(alloc, base) {
        Ok(document) => document,
        Err(fault) => return Err(fault),
    };
    file_beside(alloc, &document, mapped, name)
}

/// The address of a file of the application whose manifest is at the base: the name, word-escaped, in the directory
/// of the base, with `.deploy` behind it where files are mapped. `BadUrl` comes exactly where the base, as it is
/// written, is no URL, or where the joined one, as a URL writes it, is longer than 2,048 bytes; `NotHttp` never comes.
/// `Memory` may come at any name.
pub fn file_target(
    alloc: Global,
    base: &Target,
    mapped: bool,
    name: &Name,
) -> Result<Target, UrlFault>
    ensures exact { Gives result (file_target_of base.now mapped name.now) }
    ensures address { IfOk result IsAddress }
    ensures refused { result ≡ Err BadUrl → IsUnreachable base.now mapped name.now }
    ensures unreachable { IsUnreachable base.now mapped name.now
        → (result ≡ Err BadUrl) ⊎ (result ≡ Err Memory) }
    ensures http { (scheme : List ℕ) → result ≢ Err (NotHttp scheme) }
{
    file_address(alloc, base, mapped, name.as_bytes())
}
