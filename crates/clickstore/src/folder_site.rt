// The program's folder as a link.
use fetcher::FolderLink;
use links::{Link, LinkFault};
use outside_real::RealFolder;
use small_types::Target;
use std::alloc::Global;

// A link to a folder, as a type without parameters: a box of the link itself gets no proof yet.
#[derive(Drop)]
pub(crate) struct FolderSite {
    link: FolderLink<RealFolder<HostRuntime>>,
}

impl FolderSite {
    // A link to the folder, of which nothing was asked.
    pub(crate) fn new(alloc: Global, folder: RealFolder<HostRuntime>) -> FolderSite {
        FolderSite {
            link: FolderLink::new(alloc, folder),
        }
    }
}

impl Link for FolderSite {
    ghost state = { λ s. ⟦<FolderLink<RealFolder<HostRuntime>> as Link>⟧.state s.link };

    fn ask(&mut self, alloc: Global, target: &Target) -> Result<u64, LinkFault> {
        self.link.ask(alloc, target)
    }

    fn piece(&mut self, buf: &mut [u8]) -> Result<usize, LinkFault> {
        self.link.piece(buf)
    }

    fn faults(&self) -> u64 {
        self.link.faults()
    }
}
