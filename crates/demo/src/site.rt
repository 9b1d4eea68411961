// Links to a release that is published in memory.
ghost use Rattle.std.specs.Prelude.{◌≡◌, IfErr, IfOk};
ghost use Rattle.demo.specs.Parts.{IsNeitherFault};
ghost use Rattle.demo.specs.Steps.{IsSite};

use crate::DemoFault;
use fetcher::FolderLink;
use folders::MemFolder;
use generated_release::{GeneratedRelease, GenerationFault, PublishedRelease, publish_release};
use identity::Key;
use links::Single;
use small_types::{Bytes, List};
use std::alloc::Global;

/// The links to a folder in memory with a published release, the key of the application, and the
/// texts of the two manifests.
#[derive(Drop)]
pub(crate) struct Site {
    pub(crate) links: Single<FolderLink<MemFolder>>,
    pub(crate) key: Key,
    pub(crate) deployment: Bytes,
    pub(crate) application: Bytes,
}

/// Publishes the generated files of the release in a folder in memory, and links to it.
pub(crate) fn open_site(
    alloc: Global,
    seed: u64,
    release: GeneratedRelease,
) -> Result<Site, DemoFault>
    ensures site { IfOk result (IsSite seed release) }
    ensures fault { IfErr result IsNeitherFault }
{
    let published = match publish_release(alloc, seed, release) {
        Ok(published) => published,
        Err(GenerationFault::Refused) => return Err(DemoFault::NotPublished { release }),
        Err(GenerationFault::Memory) => return Err(DemoFault::Memory),
    };
    let PublishedRelease {
        folder,
        key,
        deployment,
        application,
    } = published;
    Ok(Site {
        links: Single {
            link: FolderLink::new(alloc, folder),
            asked: List::from_vec(Vec::new(alloc)),
        },
        key,
        deployment,
        application,
    })
}
