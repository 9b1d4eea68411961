// The store in memory and on the disk, and the commands on it.
ghost use Rattle.std.specs.Prelude.{◌≡◌, ◌≤◌, ◌<◌, ◌^◌, ◌↔◌, ℕ, List, [], Contains, IfOk, IsErr, IsTrue, length, map};
ghost use Rattle.disks.specs.Moments.{Untouched};
ghost use Rattle.disks.specs.Spends.{Spends};
ghost use Rattle.small_types.specs.declared.room.Room.{Room};
ghost use Rattle.small_types.specs.declared.limits.TheConstants.{NUMBER_LIMIT, PIECE_LIMIT};
ghost use Rattle.small_types.specs.Name.{IsName};
ghost use Rattle.identity.specs.Key.{IsKey};
ghost use Rattle.identity.specs.Version.{IsVersion};
ghost use Rattle.machine.specs.declared.command.Command.TheVariants as command;
ghost use Rattle.machine.specs.Machine.{Hears, refusals};
ghost use Rattle.machine.specs.Blocks.{used_blocks};
ghost use Rattle.machine.specs.Rows.{PassesAll};
ghost use Rattle.machine.specs.Shape.{Shape, bare_view};
ghost use Rattle.machine.specs.Store.{Session, Store};
ghost use Rattle.machine.specs.Valid.{Valid};
ghost use Rattle.machine.specs.Weight.{IsLight};
ghost use Rattle.machine.specs.Words.{IsCommand, IsGroup};
ghost use Rattle.record_codec.specs.Codec.{IsChange};
ghost use Rattle.store_state.specs.declared.change.Change.TheVariants as change;
ghost use Rattle.store_state.specs.Change.{Fits, effect};
ghost use Rattle.store_state.specs.Shows.{Shows};
ghost use Rattle.store_state.specs.Stored.{content_bytes};
ghost use Rattle.store_state.specs.Tables.{table_shape};
ghost use Rattle.table_files.specs.Freed.{brought};
ghost use Rattle.updater.specs.Answer.{IsAnswer};
ghost use Rattle.updater.specs.Commanded.{MayLack};
ghost use Rattle.updater.specs.Requirement.{Raises};

use crate::RecoverFault;
use crate::data_files::{local_of, removal_of};
use crate::durable::keep_files;
use crate::launch_step::launch_step_of;
use crate::leased::leased_file;
use crate::opened::open_files;
use crate::put_step::{put_file, put_step_of, stands_there};
use crate::refusal::{finish_refusal, require_refusal};
use crate::requirement::minimum_that_stays;
use crate::rollback_step::rollback_step_of;
use crate::rows::{list_rows, show_row};
use crate::skip_step::skip_step_of;
use block_files::{PartFault, has_bytes, read_part};
use cleaner::{CleanFault, removable};
use disks::Disk;
use file_store::FileStore;
use identity::{Key, Version};
use install_plan::{Prepared, PreparedFiles, prepare, prepare_check, prepare_group};
use journal::Log;
use links::Links;
use machine::{Command, Heard, Reply, one_data_file_is_changed};
use outside::Failed;
use small_types::{Bytes, CopyFault, Duplicate, List, Name, Room, Text};
use std::alloc::{AllocError, Global};
use std::marker::Model;
use std::mem::replace;
use store_state::{Change, Content, StoreState, puts_show_the_file, removals_show_the_rest};
use table_check::ordered_tables_show_ordered_stores;
use table_codec::changes_stay_encodable;
use table_files::held_are_used;
use table_log::{Rooms, StepFault, a_log_stays_open_as_tables, an_image_reads_as_one};
use table_weight::{changed_tables_weigh, tables_weigh_as_shown};

/// A store that is open: its log, its room, its tables, and which of its blocks are free: those that the
/// tables do not hold. The tables have always room in a half of the log. The memory for what a change
/// writes is taken when the store is opened.
#[derive(Debug, Drop)]
pub struct Updater {
    log: Log,
    room: Room,
    rooms: Rooms,
    files: FileStore,
    state: StoreState,
}

impl Model for Updater {
    ghost use Rattle.table_files.specs.Held.{held_by};
    ghost use Rattle.table_log.specs.Rooms.{HaveRooms};
    ghost use Rattle.install_plan.specs.Blocks.{UsesBlocks};
    ghost use Rattle.updater.specs.Shown.{IsKept};
    ghost use Rattle.updater.specs.Shown as shown;

    ghost Value = { shown.Updater };

    ghost view = { λ u. record { log = u.log; room = u.room; state = u.state } };

    ghost invariant = { λ u. IsKept u.log u.room u.state × HaveRooms u.room.half u.rooms
        × UsesBlocks u.files u.room (held_by u.state) };
}

// How a command ends once its change was tried.
fn answer(kept: Result<(), StepFault>, reply: Reply) -> Result<Reply, Failed>
    ensures { IsAnswer reply kept result }
{
    match kept {
        Ok(()) => Ok(reply),
        Err(StepFault::Memory) => {
            drop(reply);
            Ok(Reply::Memory)
        }
        Err(StepFault::DiskFault) => {
            drop(reply);
            Err(Failed)
        }
    }
}

// The most manifest texts that the command hears.
fn most_texts(command: &Command) -> usize
    ensures most { (shape : Shape) (texts : List (List ℕ)) → Hears shape command.now texts
        → length texts ≤ result }
    ensures some { 0 < result → MayLack command.now }
{
    match command {
        Command::Install { .. } => 2,
        Command::Check { .. } => 1,
        _ => 0,
    }
}

impl Updater {
    ghost use Rattle.updater.specs.Commanded.{Commanded, CommandedBehind};
    ghost use Rattle.updater.specs.KeepsChange.{KeepsChange, MayKeep};
    ghost use Rattle.updater.specs.Loaded.{Loaded};
    ghost use Rattle.updater.specs.Opened.{Opened};
    ghost use Rattle.updater.specs.Updater.{Holds, room_of, tables_of};
    ghost use Rattle.table_weight.specs.Laws.{BringsNothing};

    /// Opens the store on the disk. Where the kept boot number differs from the given one, which is
    /// at most 2^62, the given one is made durable, which ends all leases, and the answer is true.
    /// `NotAStore`: the bytes are no tables in a journal, or tables that are out of order, beyond a
    /// limit or without room.
    pub fn recover<D: Disk>(
        alloc: Global,
        disk: &mut D,
        boot: u64,
    ) -> Result<(Updater, bool), RecoverFault>
        requires { boot ≤ NUMBER_LIMIT }
        ensures { Opened D.Disk boot disk.old result disk.new }
    {
        an_image_reads_as_one();
        let mut updater = match Updater::load(alloc, disk) {
            Ok(updater) => updater,
            Err(fault) => return Err(fault),
        };
        if updater.state.boot == boot {
            return Ok((updater, false));
        }
        match updater.keep_lighter(alloc, disk, Change::Boot { boot }) {
            Ok(()) => Ok((updater, true)),
            Err(StepFault::Memory) => Err(RecoverFault::Memory),
            Err(StepFault::DiskFault) => Err(RecoverFault::DiskFault),
        }
    }

    /// Runs a command at a moment in seconds, at most 2^62. What it changes is durable once it is
    /// answered. The manifest texts that it heard of the links are added, behind those that stand
    /// there. Want of memory is a reply, but not to a launch, a skip, a rollback or a finish, nor to
    /// `at`. `Failed`: the disk failed; the store is then that before
    /// or after the command, and is to be recovered anew.
    pub fn apply<D: Disk, L: Links>(
        &mut self,
        alloc: Global,
        disk: &mut D,
        links: &mut L,
        now: u64,
        command: &Command,
        heard: &mut Heard,
    ) -> Result<Reply, Failed>
        requires command { IsCommand command.now }
        requires moment { now ≤ NUMBER_LIMIT }
        ensures { CommandedBehind D.Disk L.Links now heard.old.texts heard.new.texts command.now
            self.old disk.old links.old result self.new disk.new links.new }
    {
        let mut texts = replace(&mut heard.texts, List::from_vec(Vec::new(alloc))).into_vec();
        match texts.reserve(most_texts(command)) {
            Ok(()) => {}
            Err(AllocError) => {
                heard.texts = List::from_vec(texts);
                return Ok(Reply::Memory);
            }
        }
        let mut fresh = Heard {
            texts: List::from_vec(Vec::new(alloc)),
        };
        let answer = self.run(alloc, disk, links, now, command, &mut fresh);
        let mut more = fresh.texts.into_vec();
        texts.append(&mut more).unwrap();
        heard.texts = List::from_vec(texts);
        answer
    }

    // Runs the command, which hears its texts alone.
    fn run<D: Disk, L: Links>(
        &mut self,
        alloc: Global,
        disk: &mut D,
        links: &mut L,
        now: u64,
        command: &Command,
        heard: &mut Heard,
    ) -> Result<Reply, Failed>
        requires command { IsCommand command.now }
        requires moment { now ≤ NUMBER_LIMIT }
        requires empty { heard.old.texts ≡ [] }
        ensures { Commanded D.Disk L.Links now heard.new.texts command.now self.old disk.old
            links.old result self.new disk.new links.new }
    {
        match command {
            Command::At { now: next } => Ok(Reply::At { now: *next }),
            Command::Require { key, version } => self.require(
                alloc, disk, links, now, key, *version,
            ),
            Command::Install { url } => self.install(alloc, disk, links, now, url, heard),
            Command::Check { key } => self.check(alloc, disk, links, now, key, heard),
            Command::Skip { key } => self.skip(alloc, disk, links, now, key),
            Command::Rollback { key } => self.rollback(alloc, disk, links, now, key),
            Command::Launch { key } => self.launch(alloc, disk, links, now, key),
            Command::Read {
                lease,
                name,
                from,
                count,
            } => self.read(alloc, disk, links, now, *lease, name, *from, *count),
            Command::Local {
                lease,
                name,
                from,
                count,
            } => self.read_local(alloc, disk, links, now, *lease, name, *from, *count),
            Command::Put { lease, name, bytes } => self.put(
                alloc, disk, links, now, *lease, name, bytes,
            ),
            Command::Remove { lease, name } => self.remove(alloc, disk, links, now, *lease, name),
            Command::Group { lease, group } => self.group(alloc, disk, links, now, *lease, group),
            Command::Finish { lease } => self.finish(alloc, disk, links, now, *lease),
            Command::Clean => self.clean(alloc, disk, links, now),
            Command::List => self.list(alloc, disk, links, now),
            Command::Show { key } => self.show(alloc, disk, links, now, key),
        }
    }

    /// How many blocks the files of its views take: those of each content that program files share,
    /// and of each data file.
    pub fn used_blocks(&self) -> u64
        ensures { (room : Room) (image : List ℕ) (store : Store)
            → Shows room (tables_of self.now) image store → Valid store
            → result ≡ used_blocks (map bare_view store.views) }
    {
        self.state.used_blocks()
    }

    /// Its tables, to be read.
    pub fn state(&self) -> &StoreState
        ensures { result.now ≡ tables_of self.now }
    {
        &self.state
    }

    /// Whether a content of its tables is just these bytes. It reads a block at a time, as far as they
    /// are the same, and takes no memory. `Failed`: the disk failed.
    pub fn has_content<D: Disk>(
        &self,
        disk: &mut D,
        content: &Content,
        bytes: &[u8],
    ) -> Result<bool, Failed>
        requires { Contains (tables_of self.now).contents content.now }
        ensures same { D.tells disk.new → (session : Session)
            → Holds D.Disk self.now disk.old session → IfOk result (λ same. IsTrue same
            ↔ (content_bytes session.store.room (D.seen disk.old) content.now ≡ bytes.now)) }
        ensures still { Untouched D.Disk disk.old disk.new }
        ensures spends { Spends D.Disk 0 0 disk.old disk.new (IsErr result) }
    {
        has_bytes(&self.files, disk, &content.held, content.size, bytes)
    }

    // Reads the store that the disk stands for.
    fn load<D: Disk>(alloc: Global, disk: &mut D) -> Result<Updater, RecoverFault>
        ensures { Loaded D.Disk disk.old result disk.new }
    {
        let opened = match table_log::recover(alloc, disk) {
            Ok(opened) => opened,
            Err(table_log::OpenFault::NotTables) => return Err(RecoverFault::NotAStore),
            Err(table_log::OpenFault::Memory) => return Err(RecoverFault::Memory),
            Err(table_log::OpenFault::DiskFault) => return Err(RecoverFault::DiskFault),
        };
        an_image_reads_as_one();
        a_log_stays_open_as_tables::<D>();
        ordered_tables_show_ordered_stores();
        tables_weigh_as_shown();
        changes_stay_encodable();
        opened.state.are_tables();
        let (files, rooms) = match open_files(alloc, disk, &opened.state, opened.room) {
            Ok(parts) => parts,
            Err(fault) => {
                drop(opened);
                return Err(fault);
            }
        };
        let table_log::OpenTables { log, room, state } = opened;
        Ok(Updater {
            log,
            room,
            rooms,
            files,
            state,
        })
    }

    // Makes a change that fits durable, by which no file comes, and makes it in the tables, which have
    // room then. What it lets go is free behind it. For want of memory it does nothing.
    fn keep<D: Disk>(
        &mut self,
        alloc: Global,
        disk: &mut D,
        change: Change,
    ) -> Result<(), StepFault>
        requires may { MayKeep self.old change }
        requires none { brought change ≡ [] }
        ensures { KeepsChange D.Disk change self.old disk.old result self.new disk.new }
    {
        let none = List::from_vec(Vec::new(alloc));
        keep_files(
            &mut self.log,
            &mut self.rooms,
            &mut self.files,
            &mut self.state,
            self.room,
            alloc,
            disk,
            change,
            &none,
            &none,
        )
    }

    // The same of a change by which nothing comes, so that the tables weigh no more than before.
    fn keep_lighter<D: Disk>(
        &mut self,
        alloc: Global,
        disk: &mut D,
        change: Change,
    ) -> Result<(), StepFault>
        requires may { Fits (tables_of self.old) change × IsChange change }
        requires lighter { BringsNothing (tables_of self.old) change }
        ensures { KeepsChange D.Disk change self.old disk.old result self.new disk.new }
    {
        self.state.are_tables();
        changed_tables_weigh();
        self.keep(alloc, disk, change)
    }

    // Requires the version of the key. The links are not asked.
    fn require<D: Disk, L: Links>(
        &mut self,
        alloc: Global,
        disk: &mut D,
        links: &L,
        now: u64,
        key: &Key,
        version: Version,
    ) -> Result<Reply, Failed>
        requires words { IsKey key.now × IsVersion version }
        requires moment { now ≤ NUMBER_LIMIT }
        ensures { Commanded D.Disk L.Links now [] (command.Require key.now version)
            self.old disk.old links.now result self.new disk.new links.now }
    {
        if let Some(reply) = require_refusal(&self.state, self.room, key) {
            return Ok(reply);
        }
        if let Some(minimum) = minimum_that_stays(&self.state, key, version) {
            return Ok(Reply::Minimum { version: minimum });
        }
        self.raise(alloc, disk, links, now, key, version)
    }

    // Makes the version the minimum of the key, which it is to be and is not.
    fn raise<D: Disk, L: Links>(
        &mut self,
        alloc: Global,
        disk: &mut D,
        _links: &L,
        _now: u64,
        key: &Key,
        version: Version,
    ) -> Result<Reply, Failed>
        requires words { IsKey key.now × IsVersion version }
        requires moment { _now ≤ NUMBER_LIMIT }
        requires passed { PassesAll (refusals _now []
            (table_shape (room_of self.old) (tables_of self.old))
            (command.Require key.now version)) }
        requires raises { Raises key.now version (tables_of self.old).apps }
        ensures { Commanded D.Disk L.Links _now [] (command.Require key.now version)
            self.old disk.old _links.now result self.new disk.new _links.now }
    {
        let key = match key.copy(alloc) {
            Ok(key) => key,
            Err(CopyFault::Memory) => return Ok(Reply::Memory),
        };
        self.state.are_tables();
        changed_tables_weigh();
        answer(
            self.keep(alloc, disk, Change::Require { key, version }),
            Reply::Minimum { version },
        )
    }

    // Installs the release at the address.
    fn install<D: Disk, L: Links>(
        &mut self,
        alloc: Global,
        disk: &mut D,
        links: &mut L,
        now: u64,
        url: &Bytes,
        heard: &mut Heard,
    ) -> Result<Reply, Failed>
        requires moment { now ≤ NUMBER_LIMIT }
        requires empty { heard.old.texts ≡ [] }
        ensures { Commanded D.Disk L.Links now heard.new.texts (command.Install url.now) self.old
            disk.old links.old result self.new disk.new links.new }
    {
        let state = &self.state;
        let files = &mut self.files;
        match prepare(alloc, state, self.room, files, disk, links, now, url, heard) {
            PreparedFiles::Change {
                change,
                reply,
                taken,
                unused,
            } => answer(
                keep_files(
                    &mut self.log,
                    &mut self.rooms,
                    &mut self.files,
                    &mut self.state,
                    self.room,
                    alloc,
                    disk,
                    change,
                    &taken,
                    &unused,
                ),
                reply,
            ),
            PreparedFiles::Reply { reply } => Ok(reply),
            PreparedFiles::DiskFault => Err(Failed),
        }
    }

    // Asks the application's provider what it offers. Where no link gives the manifest, that is
    // noted before it is answered.
    fn check<D: Disk, L: Links>(
        &mut self,
        alloc: Global,
        disk: &mut D,
        links: &mut L,
        now: u64,
        key: &Key,
        heard: &mut Heard,
    ) -> Result<Reply, Failed>
        requires words { IsKey key.now }
        requires moment { now ≤ NUMBER_LIMIT }
        requires empty { heard.old.texts ≡ [] }
        ensures { Commanded D.Disk L.Links now heard.new.texts (command.Check key.now) self.old
            disk.old links.old result self.new disk.new links.new }
    {
        match prepare_check(alloc, &self.state, links, now, key, heard) {
            Prepared::Change {
                change: noted,
                reply,
            } => answer(self.keep_lighter(alloc, disk, noted), reply),
            Prepared::Reply { reply } => Ok(reply),
        }
    }

    // Notes that what is offered to the application is not wanted. The links are not asked.
    fn skip<D: Disk, L: Links>(
        &mut self,
        alloc: Global,
        disk: &mut D,
        _links: &L,
        now: u64,
        key: &Key,
    ) -> Result<Reply, Failed>
        requires words { IsKey key.now }
        requires moment { now ≤ NUMBER_LIMIT }
        ensures { Commanded D.Disk L.Links now [] (command.Skip key.now)
            self.old disk.old _links.now result self.new disk.new _links.now }
    {
        let skipping = match skip_step_of(&self.state, key, now) {
            Ok(skipping) => skipping,
            Err(reply) => return Ok(reply),
        };
        let version = skipping.offer;
        if skipping.stands {
            return Ok(Reply::Skipped { version });
        }
        answer(
            self.keep_lighter(alloc, disk, Change::Skip { app: skipping.app }),
            Reply::Skipped { version },
        )
    }

    // Goes back to the previous view of the application. The links are not asked.
    fn rollback<D: Disk, L: Links>(
        &mut self,
        alloc: Global,
        disk: &mut D,
        _links: &L,
        now: u64,
        key: &Key,
    ) -> Result<Reply, Failed>
        requires words { IsKey key.now }
        requires moment { now ≤ NUMBER_LIMIT }
        ensures { Commanded D.Disk L.Links now [] (command.Rollback key.now)
            self.old disk.old _links.now result self.new disk.new _links.now }
    {
        let going = match rollback_step_of(&self.state, key) {
            Ok(going) => going,
            Err(reply) => return Ok(reply),
        };
        answer(
            self.keep_lighter(alloc, disk, Change::Rollback { app: going.app }),
            Reply::Current {
                version: going.version,
            },
        )
    }

    // Gives a lease on the current view of the application. The links are not asked.
    fn launch<D: Disk, L: Links>(
        &mut self,
        alloc: Global,
        disk: &mut D,
        _links: &L,
        now: u64,
        key: &Key,
    ) -> Result<Reply, Failed>
        requires words { IsKey key.now }
        requires moment { now ≤ NUMBER_LIMIT }
        ensures { Commanded D.Disk L.Links now [] (command.Launch key.now)
            self.old disk.old _links.now result self.new disk.new _links.now }
    {
        let start = match launch_step_of(&self.state, key, now) {
            Ok(start) => start,
            Err(reply) => return Ok(reply),
        };
        answer(
            self.keep_lighter(alloc, disk, Change::Launch { app: start.app }),
            Reply::Lease {
                lease: start.lease,
                version: start.version,
                check_due: start.check_due,
            },
        )
    }

    // Reads bytes of a program file of the leased view. The links are not asked.
    fn read<D: Disk, L: Links>(
        &self,
        alloc: Global,
        disk: &mut D,
        _links: &L,
        now: u64,
        lease: u64,
        name: &Name,
        from: u64,
        count: u64,
    ) -> Result<Reply, Failed>
        requires { now ≤ NUMBER_LIMIT }
        ensures { Commanded D.Disk L.Links now [] (command.Read lease name.now from count)
            self.now disk.old _links.now result self.now disk.new _links.now }
    {
        let file = match leased_file(&self.state, lease, name) {
            Ok(file) => file,
            Err(reply) => return Ok(reply),
        };
        let length = file.size;
        match read_part(alloc, &self.files, disk, &file.held, length, from, count) {
            Ok(bytes) => Ok(Reply::Read { length, bytes }),
            Err(PartFault::Memory) => Ok(Reply::Memory),
            Err(PartFault::DiskFault) => Err(Failed),
        }
    }

    // Reads bytes of a data file of the leased view. The links are not asked.
    fn read_local<D: Disk, L: Links>(
        &self,
        alloc: Global,
        disk: &mut D,
        _links: &L,
        now: u64,
        lease: u64,
        name: &Name,
        from: u64,
        count: u64,
    ) -> Result<Reply, Failed>
        requires { now ≤ NUMBER_LIMIT }
        ensures { Commanded D.Disk L.Links now [] (command.Local lease name.now from count)
            self.now disk.old _links.now result self.now disk.new _links.now }
    {
        let file = match local_of(&self.state, lease, name) {
            Ok(file) => file,
            Err(reply) => return Ok(reply),
        };
        let length = file.length;
        match read_part(alloc, &self.files, disk, &file.held, length, from, count) {
            Ok(bytes) => Ok(Reply::Read { length, bytes }),
            Err(PartFault::Memory) => Ok(Reply::Memory),
            Err(PartFault::DiskFault) => Err(Failed),
        }
    }

    // Puts a data file with these bytes into the leased view. Where they stand there already,
    // nothing is written. The links are not asked.
    fn put<D: Disk, L: Links>(
        &mut self,
        alloc: Global,
        disk: &mut D,
        _links: &L,
        now: u64,
        lease: u64,
        name: &Name,
        bytes: &Bytes,
    ) -> Result<Reply, Failed>
        requires words { (lease ≤ NUMBER_LIMIT) × IsName name.now
            × (length bytes.now ≤ PIECE_LIMIT) }
        requires moment { now ≤ NUMBER_LIMIT }
        ensures { Commanded D.Disk L.Links now [] (command.Put lease name.now bytes.now)
            self.old disk.old _links.now result self.new disk.new _links.now }
    {
        let view = match put_step_of(&self.state, self.room, lease, name, bytes) {
            Ok(view) => view,
            Err(reply) => return Ok(reply),
        };
        match stands_there(&self.state, &self.files, disk, view, name, bytes) {
            Ok(true) => return Ok(Reply::Put),
            Ok(false) => {}
            Err(Failed) => return Err(Failed),
        }
        self.state.are_tables();
        held_are_used();
        changed_tables_weigh();
        puts_show_the_file();
        one_data_file_is_changed();
        let (file, taken) = match put_file(alloc, &mut self.files, disk, name, bytes) {
            Ok(made) => made,
            Err(fault) => return answer(Err(fault), Reply::Put),
        };
        let none = List::from_vec(Vec::new(alloc));
        answer(
            keep_files(
                &mut self.log,
                &mut self.rooms,
                &mut self.files,
                &mut self.state,
                self.room,
                alloc,
                disk,
                Change::Put { view, file },
                &taken,
                &none,
            ),
            Reply::Put,
        )
    }

    // Removes the data file of the leased view. The links are not asked.
    fn remove<D: Disk, L: Links>(
        &mut self,
        alloc: Global,
        disk: &mut D,
        _links: &L,
        now: u64,
        lease: u64,
        name: &Name,
    ) -> Result<Reply, Failed>
        requires words { (lease ≤ NUMBER_LIMIT) × IsName name.now }
        requires moment { now ≤ NUMBER_LIMIT }
        ensures { Commanded D.Disk L.Links now [] (command.Remove lease name.now)
            self.old disk.old _links.now result self.new disk.new _links.now }
    {
        let view = match removal_of(&self.state, lease, name) {
            Ok(view) => view,
            Err(reply) => return Ok(reply),
        };
        let name = match name.copy(alloc) {
            Ok(name) => name,
            Err(CopyFault::Memory) => return Ok(Reply::Memory),
        };
        removals_show_the_rest();
        one_data_file_is_changed();
        answer(
            self.keep_lighter(alloc, disk, Change::Remove { view, name }),
            Reply::Removed,
        )
    }

    // Brings the files of the group to the leased view.
    fn group<D: Disk, L: Links>(
        &mut self,
        alloc: Global,
        disk: &mut D,
        links: &mut L,
        now: u64,
        lease: u64,
        group: &Text,
    ) -> Result<Reply, Failed>
        requires words { (lease ≤ NUMBER_LIMIT) × IsGroup group.now }
        requires moment { now ≤ NUMBER_LIMIT }
        ensures { Commanded D.Disk L.Links now [] (command.Group lease group.now) self.old
            disk.old links.old result self.new disk.new links.new }
    {
        self.state.are_tables();
        let state = &self.state;
        let files = &mut self.files;
        match prepare_group(alloc, state, self.room, files, disk, links, lease, group) {
            PreparedFiles::Change {
                change: grows,
                reply,
                taken,
                unused,
            } => answer(
                keep_files(
                    &mut self.log,
                    &mut self.rooms,
                    &mut self.files,
                    &mut self.state,
                    self.room,
                    alloc,
                    disk,
                    grows,
                    &taken,
                    &unused,
                ),
                reply,
            ),
            PreparedFiles::Reply { reply } => Ok(reply),
            PreparedFiles::DiskFault => Err(Failed),
        }
    }

    // Ends the lease. The links are not asked.
    fn finish<D: Disk, L: Links>(
        &mut self,
        alloc: Global,
        disk: &mut D,
        _links: &L,
        now: u64,
        lease: u64,
    ) -> Result<Reply, Failed>
        requires words { lease ≤ NUMBER_LIMIT }
        requires moment { now ≤ NUMBER_LIMIT }
        ensures { Commanded D.Disk L.Links now [] (command.Finish lease)
            self.old disk.old _links.now result self.new disk.new _links.now }
    {
        if let Some(reply) = finish_refusal(&self.state, lease) {
            return Ok(reply);
        }
        answer(
            self.keep_lighter(alloc, disk, Change::Finish { lease }),
            Reply::Finished { lease },
        )
    }

    // Gives up the views that are not in use. Where there are none, nothing is written. The links
    // are not asked.
    fn clean<D: Disk, L: Links>(
        &mut self,
        alloc: Global,
        disk: &mut D,
        _links: &L,
        now: u64,
    ) -> Result<Reply, Failed>
        requires { now ≤ NUMBER_LIMIT }
        ensures { Commanded D.Disk L.Links now [] command.Clean
            self.old disk.old _links.now result self.new disk.new _links.now }
    {
        let numbers = match removable(alloc, &self.state) {
            Ok(numbers) => numbers,
            Err(CleanFault::Memory) => return Ok(Reply::Memory),
        };
        let views = numbers.as_slice().len() as u64;
        if views == 0 {
            return Ok(Reply::Cleaned { views });
        }
        answer(
            self.keep_lighter(alloc, disk, Change::Clean),
            Reply::Cleaned { views },
        )
    }

    // Shows each application and its current version. Neither the disk nor the links are asked.
    fn list<D: Disk, L: Links>(
        &self,
        alloc: Global,
        _disk: &D,
        _links: &L,
        now: u64,
    ) -> Result<Reply, Failed>
        requires { now ≤ NUMBER_LIMIT }
        ensures { Commanded D.Disk L.Links now [] command.List
            self.now _disk.now _links.now result self.now _disk.now _links.now }
    {
        match list_rows(alloc, &self.state) {
            Ok(rows) => Ok(Reply::Listed { rows }),
            Err(CopyFault::Memory) => Ok(Reply::Memory),
        }
    }

    // Shows what is known of the application. Neither the disk nor the links are asked.
    fn show<D: Disk, L: Links>(
        &self,
        alloc: Global,
        _disk: &D,
        _links: &L,
        now: u64,
        key: &Key,
    ) -> Result<Reply, Failed>
        requires { now ≤ NUMBER_LIMIT }
        ensures { Commanded D.Disk L.Links now [] (command.Show key.now)
            self.now _disk.now _links.now result self.now _disk.now _links.now }
    {
        let Some(app) = self.state.entry(key) else {
            return Ok(Reply::NotInstalled);
        };
        match show_row(alloc, &self.state, app) {
            Ok(row) => Ok(Reply::Shown { row }),
            Err(CopyFault::Memory) => Ok(Reply::Memory),
        }
    }
}
