// A folder as a link.
ghost use Rattle.std.specs.Prelude.{◌≡◌, ◌≢◌, ◌<◌, ◌≤◌, ◌⊎◌, [], ◌∷◌, ◌++◌, length, drop, IfOk, IsOk, Err};
ghost use Rattle.links.specs.declared.history.LinkCall.TheVariants.{Asked};
ghost use Rattle.links.specs.declared.link.LinkFault.TheVariants.{Missing, Down};
ghost use Rattle.outside.specs.Streams.{total};
ghost use Rattle.folders.specs.Folder.{FailsCounted};
ghost use Rattle.folders.specs.Found.{Finds, IsWithin};
ghost use Rattle.http_plain.specs.Path.{name_in_path as name_at};
ghost use Rattle.http_plain.specs.Sites.{file_named};
ghost use Rattle.fetcher.specs.LongFiles.{FileTooLong, FolderFailed, IsLong, MeasuresLong, TellsLong};

use folders::{Folder, FolderFault, Found};
use http_plain::name_in_path;
use links::{History, Link, LinkFault};
use outside::copy_from;
use small_types::limits::FILE_SIZE_LIMIT;
use small_types::{Bytes, Target};
use std::alloc::Global;

/// The files of a folder as a site, by the names that a host of them goes by: the path without its first `/` and
/// without a query, with each escape read. The host and the port are not looked at. A file that is longer than any that
/// is published is not read, and the link is down for it. Its count of faults is the folder's and the number of targets
/// that were missing or so long.
#[derive(Drop, Debug)]
pub struct FolderLink<F: Folder> {
    pub folder: F,
    // The body that was asked for last, and how much of it was given.
    body: Bytes,
    at: usize,
    // How many targets were missing, or had a file that is too long.
    unread: u64,
    history: History,
}

// Puts the bytes of the file that the path names into the buffer, if it names one that is there and not too long.
fn find_file<F: Folder>(
    alloc: Global,
    folder: &mut F,
    path: &[u8],
    into: &mut Bytes,
) -> Result<Found, FolderFault>
    ensures found { F.tells
        → IfOk result (Finds (file_named (F.held folder.old) (name_at path.now)) into.new) }
    ensures within { IfOk result (IsWithin FILE_SIZE_LIMIT into.new) }
    ensures measured { F.records
        → IfOk result (MeasuresLong path.now (F.answers folder.old) (F.answers folder.new)) }
    ensures kept { F.tells → F.held folder.new ≡ F.held folder.old }
    ensures cause { FailsCounted (F.count folder.old) (F.count folder.new) result }
{
    match name_in_path(alloc, path)? {
        Some(name) => folder.get_within(alloc, &name, FILE_SIZE_LIMIT, into),
        None => Ok(Found::Nothing),
    }
}

impl<F: Folder> FolderLink<F> {
    ghost use Rattle.fetcher.specs.FolderSites.{folder_history, folder_rest, folder_unread};

    /// A link to the folder, of which nothing was asked. It takes no memory.
    pub fn new(alloc: Global, folder: F) -> FolderLink<F>
        ensures folder { result.folder ≡ folder }
        ensures rest { folder_rest result ≡ [] }
        ensures unread { folder_unread result ≡ 0 }
        ensures history { folder_history result ≡ [] }
    {
        FolderLink {
            folder,
            body: Bytes::from_vec(Vec::new(alloc)),
            at: 0,
            unread: 0,
            history: History::new(),
        }
    }

    // Makes these bytes the body.
    fn open(&mut self, bytes: Bytes)
        ensures rest { folder_rest self.new ≡ bytes }
        ensures folder { self.new.folder ≡ self.old.folder }
        ensures unread { folder_unread self.new ≡ folder_unread self.old }
        ensures history { self.new.history ≡ self.old.history }
    {
        self.body = bytes;
        self.at = 0;
    }

    // Leaves nothing of the body, and answers the fault to the target.
    fn close(&mut self, alloc: Global, target: &Target, fault: LinkFault) -> LinkFault
        ensures fault { result ≡ fault }
        ensures rest { folder_rest self.new ≡ [] }
        ensures folder { self.new.folder ≡ self.old.folder }
        ensures unread { folder_unread self.new ≡ folder_unread self.old }
        ensures history { folder_history self.new
            ≡ folder_history self.old ++ Asked target.now (Err fault) ∷ [] }
    {
        self.open(Bytes::from_vec(Vec::new(alloc)));
        self.history.ask(target, Err(fault));
        fault
    }

    // Counts a target that is missing, or whose file is too long.
    fn pass_over(&mut self)
        ensures unread { folder_unread self.new ≡ total (folder_unread self.old) 1 }
        ensures folder { self.new.folder ≡ self.old.folder }
        ensures rest { folder_rest self.new ≡ folder_rest self.old }
        ensures history { self.new.history ≡ self.old.history }
    {
        self.unread = self.unread.saturating_add(1);
    }
}

impl<F: Folder + Drop> Link for FolderLink<F> {
    ghost use Rattle.std.specs.Prelude.{ℕ, List};
    ghost use Rattle.links.specs.Asked.{NotesAsk, NotesPiece};
    ghost use Rattle.links.specs.History.{calls_of};
    ghost use Rattle.links.specs.Link.{LinkState, Asks, Takes};
    ghost use Rattle.fetcher.specs.FolderSites.{folder_state, folder_unread};
    ghost use Rattle.http_plain.specs.Sites.{served};

    ghost state = { λ l. record {
      tells = F.tells;
      site = served (F.held l.folder);
      rest = drop l.at l.body;
      count = total (F.count l.folder) l.unread;
      history = calls_of l.history;
    } };

    fn ask(&mut self, alloc: Global, target: &Target) -> Result<u64, LinkFault>
        ensures asks { Asks target.now
            (folder_state F.tells (F.held self.old.folder) (F.count self.old.folder) self.old)
            (folder_state F.tells (F.held self.new.folder) (F.count self.new.folder) self.new)
            result }
        ensures noted { NotesAsk target.now
            (folder_state F.tells (F.held self.old.folder) (F.count self.old.folder) self.old)
            (folder_state F.tells (F.held self.new.folder) (F.count self.new.folder) self.new)
            result }

        // Each target that is missing, or whose file is too long, is counted once. It fails only where the folder does,
        // or where the file is too long. No file that is too long is given.
        ensures missed { result ≡ Err Missing
            → folder_unread self.new ≡ total (folder_unread self.old) 1 }
        ensures read { result ≢ Err Missing → result ≢ Err Down
            → folder_unread self.new ≡ folder_unread self.old }
        ensures down { result ≡ Err Down
            → FolderFailed (F.count self.old.folder) (F.count self.new.folder)
            (folder_unread self.old) (folder_unread self.new)
            ⊎ FileTooLong (F.tells → IsLong (served (F.held self.old.folder) target.now))
            (F.records → TellsLong target.now.path (F.answers self.old.folder)
            (F.answers self.new.folder))
            (F.count self.old.folder) (F.count self.new.folder)
            (folder_unread self.old) (folder_unread self.new) }
        ensures within { IfOk result (λ n. n ≤ FILE_SIZE_LIMIT) }
        ensures kept { F.tells → F.held self.new.folder ≡ F.held self.old.folder }
    {
        let mut bytes = Bytes::from_vec(Vec::new(alloc));
        match find_file(alloc, &mut self.folder, target.path.as_bytes(), &mut bytes) {
            Ok(Found::Whole) => {
                let length = bytes.as_slice().len() as u64;
                self.open(bytes);
                self.history.ask(target, Ok(length));
                Ok(length)
            }
            Ok(Found::Nothing) => {
                self.pass_over();
                Err(self.close(alloc, target, LinkFault::Missing))
            }
            Ok(Found::TooLong { .. }) => {
                self.pass_over();
                Err(self.close(alloc, target, LinkFault::Down))
            }
            Err(FolderFault::Failed) => Err(self.close(alloc, target, LinkFault::Down)),
            Err(FolderFault::Memory) => {
                self.history.ask(target, Err(LinkFault::Memory));
                Err(LinkFault::Memory)
            }
        }
    }

    fn piece(&mut self, buf: &mut [u8]) -> Result<usize, LinkFault>
        requires { 0 < length buf.old }
        ensures takes { Takes
            (folder_state F.tells (F.held self.old.folder) (F.count self.old.folder) self.old)
            (folder_state F.tells (F.held self.new.folder) (F.count self.new.folder) self.new)
            buf.old buf.new result }
        ensures noted { NotesPiece
            (folder_state F.tells (F.held self.old.folder) (F.count self.old.folder) self.old)
            (folder_state F.tells (F.held self.new.folder) (F.count self.new.folder) self.new)
            buf.new result }

        // It never fails.
        ensures gives { IsOk result }
        ensures unread { folder_unread self.new ≡ folder_unread self.old }
        ensures folder { self.new.folder ≡ self.old.folder }
    {
        let n = copy_from(self.body.as_slice(), &mut self.at, buf);
        self.history.piece(buf, Ok(n));
        Ok(n)
    }

    fn faults(&self) -> u64 {
        self.folder.faults().saturating_add(self.unread)
    }
}
