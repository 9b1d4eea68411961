// The two manifests of a release.
ghost use Rattle.std.specs.Prelude.{◌≡◌, ◌≤◌, All, None, length, IfOk, IfErr, OnErr, Err};
ghost use Rattle.digest_list.specs.Digest.{IsSized};
ghost use Rattle.identity.specs.Version.{IsVersion};
ghost use Rattle.manifests.specs.FileLists.{AreFiles};
ghost use Rattle.manifest_writer.specs.Applications.{application_text as application_text_of};
ghost use Rattle.manifests.specs.Facts.{AreApplicationFacts, IsFile};
ghost use Rattle.publish_plan.specs.Early.{early_of};
ghost use Rattle.publish_plan.specs.Places.{codebase};
ghost use Rattle.publisher.specs.declared.fault.PublishFault.TheVariants.{Memory};
ghost use Rattle.publisher.specs.Faults.{IsManifestFault};
ghost use Rattle.publisher.specs.Options.{IsPublishable};
ghost use Rattle.publisher.specs.Outcome.{Gives};
ghost use Rattle.publisher.specs.Publication.{application_identity as application_identity_of, application_of as application_with, deployment_identity as deployment_identity_of, deployment_of as deployment_with, deployment_key as deployment_key_of, deployment_manifest_of, digests_of as digests_in, key_named as key_with, limited, manifests_of as manifests_with};

use crate::PublishFault;
use crate::entries::digests_of;
use digest_list::DigestList;
use identity::{Identity, Key, Version};
use manifest_writer::{write_application, write_deployment};
use manifests::{Application, Deployment, FileEntry};
use publish_plan::{Options, codebase_of};
use small_types::limits::MANIFEST_LIMIT;
use small_types::{Bytes, Duplicate, List, Text};
use std::alloc::Global;

/// What the manifests of a release say, and their texts.
#[derive(Drop)]
pub(crate) struct ReleaseTexts {
    /// The key of the deployment.
    pub(crate) key: Key,
    pub(crate) entries: List<FileEntry>,
    pub(crate) application: Bytes,
    pub(crate) deployment: Bytes,
}

// A text of its own.
fn text(alloc: Global, words: &str) -> Result<Text, PublishFault>
    ensures text { IfOk result (λ t. t ≡ words.now) }
    ensures memory { OnErr result (result ≡ Err Memory) }
{
    Ok(Text::from_string(String::from_str(alloc, words)?))
}

// The key of the name, with the parts that a manifest without them has.
fn key_named(alloc: Global, name: Text) -> Result<Key, PublishFault>
    ensures key { IfOk result (λ key. key ≡ key_with name) }
    ensures memory { OnErr result (result ≡ Err Memory) }
{
    Ok(Key {
        name,
        token: text(alloc, "0000000000000000")?,
        language: text(alloc, "neutral")?,
        architecture: text(alloc, "msil")?,
    })
}

// The key of what is published.
fn deployment_key(alloc: Global, options: &Options) -> Result<Key, PublishFault>
    ensures key { IfOk result (λ key. key ≡ deployment_key_of options.now) }
    ensures memory { OnErr result (result ≡ Err Memory) }
{
    let mut name = String::from_str(alloc, options.name.as_str())?;
    name.push_str(".application")?;
    key_named(alloc, Text::from_string(name))
}

// The same version, whose numbers have 16 bits.
fn same_version(version: Version) -> Version
    ensures same { result ≡ version }
    ensures numbers { IsVersion result }
{
    let Version { a, b, c, d } = version;
    Version { a, b, c, d }
}

// The identity of the deployment.
fn deployment_identity(alloc: Global, options: &Options) -> Result<Identity, PublishFault>
    ensures identity { IfOk result (λ identity. identity ≡ deployment_identity_of options.now) }
    ensures numbers { IfOk result (λ identity. IsVersion identity.version) }
    ensures memory { OnErr result (result ≡ Err Memory) }
{
    Ok(Identity {
        key: deployment_key(alloc, options)?,
        version: same_version(options.version),
        kind: text(alloc, "")?,
    })
}

// The identity of the application.
fn application_identity(alloc: Global, options: &Options) -> Result<Identity, PublishFault>
    ensures identity { IfOk result (λ identity. identity ≡ application_identity_of options.now) }
    ensures memory { OnErr result (result ≡ Err Memory) }
{
    Ok(Identity {
        key: key_named(alloc, text(alloc, options.entry.as_str())?)?,
        version: options.version,
        kind: text(alloc, "win32")?,
    })
}

// The application that has these files.
fn application_of(
    alloc: Global,
    options: &Options,
    entries: List<FileEntry>,
) -> Result<Application, PublishFault>
    ensures application { IfOk result
        (λ application. application ≡ application_with options.now entries) }
    ensures memory { OnErr result (result ≡ Err Memory) }
{
    Ok(Application {
        identity: application_identity(alloc, options)?,
        entry: text(alloc, options.entry.as_str())?,
        parameters: text(alloc, "")?,
        files: entries,
    })
}

// The text of the application manifest.
fn application_manifest(alloc: Global, application: &Application) -> Result<Bytes, PublishFault>
    requires { AreApplicationFacts application.now }
    ensures exact { Gives (λ text. text) result (limited (application_text_of application.now)) }
    ensures fault { IfErr result IsManifestFault }
{
    Ok(write_application(alloc, application)?)
}

// The address that updates come from, and that of the application manifest in that of the
// deployment.
fn places_of(alloc: Global, options: &Options) -> Result<(Option<Text>, Text), PublishFault>
    ensures provider { IfOk result (λ places. places.0 ≡ options.now.provider) }
    ensures codebase { IfOk result (λ places. places.1 ≡ codebase options.now) }
    ensures memory { OnErr result (result ≡ Err Memory) }
{
    let provider = options.provider.copy(alloc)?;
    Ok((provider, codebase_of(alloc, options)?))
}

// What a deployment says besides the options and its application.
#[derive(Drop)]
struct DeploymentParts {
    identity: Identity,
    provider: Option<Text>,
    codebase: Text,
    digests: DigestList,
}

// The parts of the deployment of the application manifest with this text. The identity comes last, so that no exit lets it go.
fn deployment_parts(
    alloc: Global,
    options: &Options,
    text: &[u8],
) -> Result<DeploymentParts, PublishFault>
    ensures identity { IfOk result (λ parts. parts.identity ≡ deployment_identity_of options.now) }
    ensures numbers { IfOk result (λ parts. IsVersion parts.identity.version) }
    ensures provider { IfOk result (λ parts. parts.provider ≡ options.now.provider) }
    ensures codebase { IfOk result (λ parts. parts.codebase ≡ codebase options.now) }
    ensures digests { IfOk result (λ parts. parts.digests ≡ digests_in text.now) }
    ensures sized { IfOk result (λ parts. All IsSized parts.digests) }
    ensures memory { OnErr result (result ≡ Err Memory) }
{
    let (provider, codebase) = places_of(alloc, options)?;
    let digests = digests_of(alloc, text)?;
    Ok(DeploymentParts {
        identity: deployment_identity(alloc, options)?,
        provider,
        codebase,
        digests,
    })
}

// The deployment of the application manifest with this text, which is that of the application.
fn deployment_of(
    alloc: Global,
    options: &Options,
    app: Identity,
    text: &[u8],
) -> Result<Deployment, PublishFault>
    requires { app ≡ application_identity_of options.now }
    ensures deployment { IfOk result
        (λ deployment. deployment ≡ deployment_with options.now text.now) }
    ensures sized { IfOk result (λ deployment. All IsSized deployment.app_list) }
    ensures numbers { IfOk result (λ deployment. IsVersion deployment.identity.version) }
    ensures memory { OnErr result (result ≡ Err Memory) }
{
    match deployment_parts(alloc, options, text) {
        Ok(parts) => Ok(Deployment {
            identity: parts.identity,
            install: true,
            minimum: options.minimum,
            mapped: options.mapped,
            rule: options.rule,
            provider: parts.provider,
            codebase: parts.codebase,
            app,
            app_size: text.len() as u64,
            app_list: parts.digests,
        }),
        Err(fault) => {
            drop(app);
            Err(fault)
        }
    }
}

// The key of the deployment.
fn into_key(deployment: Deployment) -> Key
    ensures { result ≡ deployment.identity.key }
{
    deployment.identity.key
}

// The text of the deployment manifest, and the key that it names.
fn deployment_manifest(
    alloc: Global,
    options: &Options,
    app: Identity,
    text: &[u8],
) -> Result<(Bytes, Key), PublishFault>
    requires app { app ≡ application_identity_of options.now }
    requires options { IsPublishable options.now }
    requires fit { early_of options.now ≡ None }
    requires short { length text.now ≤ MANIFEST_LIMIT }
    ensures exact { Gives (λ made. made.0) result
        (limited (deployment_manifest_of options.now text.now)) }
    ensures key { IfOk result (λ made. made.1 ≡ deployment_key_of options.now) }
    ensures fault { IfErr result IsManifestFault }
{
    let deployment = deployment_of(alloc, options, app, text)?;
    match write_deployment(alloc, &deployment, &options.publisher, &options.name) {
        Ok(text) => Ok((text, into_key(deployment))),
        Err(fault) => {
            drop(deployment);
            Err(PublishFault::from(fault))
        }
    }
}

// What is written of an application: its text, its identity and its files.
#[derive(Drop)]
struct ApplicationText {
    text: Bytes,
    identity: Identity,
    entries: List<FileEntry>,
}

// The application with this text.
fn with_text(application: Application, text: Bytes) -> ApplicationText
    ensures text { result.text ≡ text }
    ensures identity { result.identity ≡ application.identity }
    ensures entries { result.entries ≡ application.files }
{
    ApplicationText {
        text,
        identity: application.identity,
        entries: application.files,
    }
}

// The text of the application manifest of these files, its identity, and the files.
fn application_text(
    alloc: Global,
    options: &Options,
    entries: List<FileEntry>,
) -> Result<ApplicationText, PublishFault>
    requires fit { early_of options.now ≡ None }
    requires files { AreFiles entries }
    requires each { All IsFile entries }
    ensures exact { Gives (λ made. made.text) result
        (limited (application_text_of (application_with options.now entries))) }
    ensures identity { IfOk result
        (λ made. made.identity ≡ application_identity_of options.now) }
    ensures entries { IfOk result (λ made. made.entries ≡ entries) }
    ensures fault { IfErr result IsManifestFault }
{
    let application = application_of(alloc, options, entries)?;
    match application_manifest(alloc, &application) {
        Ok(text) => Ok(with_text(application, text)),
        Err(fault) => Err(fault),
    }
}

/// The manifests of an application that has these files.
pub(crate) fn manifests_of(
    alloc: Global,
    options: &Options,
    entries: List<FileEntry>,
) -> Result<ReleaseTexts, PublishFault>
    requires options { IsPublishable options.now }
    requires fit { early_of options.now ≡ None }
    requires files { AreFiles entries }
    requires each { All IsFile entries }
    ensures exact { Gives (λ release. release) result (manifests_with options.now entries) }
    ensures key { IfOk result (λ release. release.key ≡ deployment_key_of options.now) }
    ensures entries { IfOk result (λ release. release.entries ≡ entries) }
    ensures fault { IfErr result IsManifestFault }
{
    let written = application_text(alloc, options, entries)?;
    let ApplicationText {
        text: application,
        identity,
        entries,
    } = written;
    let (deployment, key) = deployment_manifest(alloc, options, identity, application.as_slice())?;
    Ok(ReleaseTexts {
        key,
        entries,
        application,
        deployment,
    })
}

/// The key that the deployment manifest of a release names.
pub(crate) fn key_of(release: ReleaseTexts) -> Key
    ensures { result ≡ release.key }
{
    release.key
}
