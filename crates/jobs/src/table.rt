// The jobs of a session.
ghost use Rattle.std.specs.Prelude.{◌≡◌, ◌≢◌, ◌+◌, ◌<◌, ◌≤◌, ℕ, false, [], length, remove, slice_index_or, slice_set, All, IfOk, IfErr, IfNone, IfSome, IsOk, OnOk, OnErr, Some, Err, vec_capacity, vec_len, nat_le, nat_lt};
ghost use Rattle.small_types.specs.declared.limits.TheConstants as limits;
ghost use Rattle.file_store.specs.Stores.{SameRange, draft_blocks, draft_size};
ghost use Rattle.file_store.specs.declared.store.FileStore.{FileStore};
ghost use Rattle.jobs.specs.Balance.{Balanced};
ghost use Rattle.jobs.specs.NewJobs.{AllSuit, HasTaken, IsWanted, Tell};
ghost use Rattle.jobs.specs.HandOver.{Receives};
ghost use Rattle.jobs.specs.Kept.{Kept};
ghost use Rattle.jobs.specs.declared.fault.JobFault.{JobFault};
ghost use Rattle.jobs.specs.declared.fault.JobFault.TheVariants.{Done, Memory, NotReady};
ghost use Rattle.jobs.specs.declared.held.Held.TheVariants.{Coming, Nothing, Whole};
ghost use Rattle.jobs.specs.declared.table.Job.{Job};
ghost use Rattle.jobs.specs.Slots.{AreFresh, KeepNeeded, is_coming, slot_at, with_held};
ghost use Rattle.jobs.specs.Jobs.{HasPassed, IsBare, IsFetched, IsOut, IsSound, KeepsSound, Opens, Takes, first_left, first_slot, hindrance};

use crate::slots::{hand_over_all, lend, let_go_all, need, put, refer_all};
use crate::{Held, JobFault, Slot};
use file_store::{Draft, FileStore};
use manifests::FileEntry;
use small_types::List;
use small_types::limits::{JOB_LIMIT, NUMBER_LIMIT};
use std::alloc::{AllocError, Global};

/// An install that goes on one file at a time.
#[derive(Drop, Debug)]
pub struct Job {
    pub number: u64,
    /// The required program files of its release, and its data files.
    pub entries: Vec<FileEntry>,
    /// For each of them, the place of its slot.
    pub needs: Vec<usize>,
    /// The entries that are still to be fetched, as places in `entries`, the first of them last.
    pub left: Vec<usize>,
}

/// What a step is to fetch.
#[derive(Drop, Debug)]
pub enum Fetch {
    /// The entry at this place, into this draft.
    Wanted(usize, Draft),
    /// The entry at this place, whose content the job has already: what comes is checked and not
    /// kept.
    Have(usize),
}

// Whether the need exceeds what is free.
fn exceeds(need: u64, free: u64) -> bool
    ensures { result ≡ nat_lt free need }
{
    need > free
}

impl Job {
    // The slot of the first entry left, which is left no more.
    fn pass(&mut self) -> usize
        requires some { 0 < length self.old.left.items }
        requires within { first_left self.old < length self.old.needs.items }
        ensures slot { result ≡ first_slot self.old }
        ensures passed { HasPassed self.old self.new }
    {
        let last = self.left.len() - 1;
        let first = self.left[last];
        self.left.truncate(last);
        self.needs[first]
    }
}

/// The jobs that are open, and all files that they need.
#[derive(Drop, Debug)]
pub struct JobTable {
    pub jobs: Vec<Job>,
    /// The number of the next job.
    pub next: u64,
    pub slots: Vec<Slot>,
}

impl JobTable {
    /// No jobs. The blocks that the tables keep are those which the store was told of when it was
    /// made. It takes no memory.
    pub fn new(alloc: Global) -> JobTable
        ensures sound { (kept : Kept) (store : FileStore) → IsBare kept store
            → IsSound kept result [] [] store }
        ensures none { result.jobs.items ≡ [] }
        ensures next { result.next ≡ 1 }
    {
        JobTable {
            jobs: Vec::new(alloc),
            next: 1,
            slots: Vec::new(alloc),
        }
    }

    /// The place of the job with this number, if one is open.
    pub fn find(&self, number: u64) -> Option<usize>
        ensures found { (d : Job) → IfSome result (λ at. (at < length self.now.jobs.items)
            × ((slice_index_or self.now.jobs.items at d).number ≡ number)) }
        ensures none { IfNone result (All (λ job. job.number ≢ number) self.now.jobs.items) }
    {
        self.jobs.iter().position(|job| job.number == number)
    }

    /// Gives up the job at this place. The blocks that neither the tables nor another job counts
    /// are free. It takes no memory.
    pub fn abandon(&mut self, at: usize, store: &mut FileStore)
        requires open { at < length self.old.jobs.items }
        requires sound { (kept : Kept) × IsSound kept self.old [] [] store.old }
        ensures sound { KeepsSound self.old [] store.old self.new [] store.new }
        ensures gone { self.new.jobs.items ≡ remove self.old.jobs.items at }
        ensures kept { KeepNeeded self.old.slots.items self.new.slots.items }
        ensures next { self.new.next ≡ self.old.next }
        ensures range { SameRange store.old store.new }
    {
        let job = self.jobs.remove(at);
        let_go_all(&mut self.slots, &job.needs, store);
    }

    /// What a step of the job at this place is to fetch: the first of its entries that are left.
    /// Its draft may hold what an earlier step wrote, so it is to be begun again. `Done`: none is
    /// left. It takes no memory.
    pub fn take(&mut self, at: usize, store: &FileStore) -> Result<Fetch, JobFault>
        requires open { at < length self.old.jobs.items }
        requires sound { (kept : Kept) × IsSound kept self.old [] [] store.now }
        ensures takes { (d : Job) → IfOk result (Takes
            (slice_index_or self.old.jobs.items at d) self.old self.new store.now) }
        ensures done { (d : Job) → IfErr result (λ e. (e ≡ Done)
            × (length (slice_index_or self.old.jobs.items at d).left.items ≡ 0)) }
        ensures nothing { (d : Job)
            → length (slice_index_or self.old.jobs.items at d).left.items ≡ 0
            → result ≡ Err Done }
        ensures same { OnErr result (self.new ≡ self.old) }
        ensures jobs { self.new.jobs ≡ self.old.jobs }
        ensures next { self.new.next ≡ self.old.next }
    {
        let job = &self.jobs[at];
        let Some(first) = job.left.last() else {
            return Err(JobFault::Done);
        };
        let place = *first;
        match lend(&mut self.slots, job.needs[place], store) {
            Some(draft) => Ok(Fetch::Wanted(place, draft)),
            None => Ok(Fetch::Have(place)),
        }
    }

    /// The step has fetched its file, which is in these blocks: it stands for each job that needs
    /// it. It answers how many entries the job has left, and takes no memory.
    pub fn keep(&mut self, at: usize, blocks: List<u32>, store: &FileStore) -> u64
        requires open { at < length self.old.jobs.items }
        requires out { (d : Job) → (kept : Kept) × IsOut kept
            (slice_index_or self.old.jobs.items at d) blocks self.old store.now }
        ensures sound { (d : Job) (kept : Kept) → IsOut kept
            (slice_index_or self.old.jobs.items at d) blocks self.old store.now
            → IsSound kept self.new [] [] store.now }
        ensures fetched { (d : Job) → IsFetched (slice_index_or self.old.jobs.items at d)
            (Whole blocks) at self.old self.new }
        ensures left { (d : Job) → result + 1
            ≡ length (slice_index_or self.old.jobs.items at d).left.items }
        ensures next { self.new.next ≡ self.old.next }
    {
        let slot = self.jobs[at].pass();
        put(&mut self.slots, slot, Held::Whole(blocks), store);
        self.jobs[at].left.len() as u64
    }

    /// The step could not fetch its file: the draft waits for another. It takes no memory.
    pub fn give_back(&mut self, at: usize, draft: Draft, store: &FileStore)
        requires open { at < length self.old.jobs.items }
        requires out { (d : Job) → (kept : Kept) × IsOut kept
            (slice_index_or self.old.jobs.items at d) (draft_blocks draft) self.old store.now }
        requires size { (d : Job) → draft_size draft ≡ (slot_at self.old.slots.items
            (first_slot (slice_index_or self.old.jobs.items at d))).key.size }
        ensures sound { (d : Job) (kept : Kept) → IsOut kept
            (slice_index_or self.old.jobs.items at d) (draft_blocks draft) self.old store.now
            → IsSound kept self.new [] [] store.now }
        ensures jobs { self.new.jobs.items ≡ self.old.jobs.items }
        ensures slots { (d : Job) → let slot = first_slot (slice_index_or self.old.jobs.items at d)
            in self.new.slots.items ≡ slice_set self.old.slots.items slot
            (with_held (slot_at self.old.slots.items slot) (Coming draft)) }
        ensures next { self.new.next ≡ self.old.next }
    {
        let job = &self.jobs[at];
        let first = job.left[job.left.len() - 1];
        put(
            &mut self.slots,
            job.needs[first],
            Held::Coming(draft),
            store,
        );
    }

    /// The step has checked a file whose content the job had already. It answers how many entries
    /// the job has left, and takes no memory.
    pub fn pass(&mut self, at: usize) -> u64
        requires open { at < length self.old.jobs.items }
        requires sound { (kept : Kept) × (store : FileStore)
            × IsSound kept self.old [] [] store }
        requires some { (d : Job)
            → 0 < length (slice_index_or self.old.jobs.items at d).left.items }
        requires here { (d : Job) → is_coming (slot_at self.old.slots.items
            (first_slot (slice_index_or self.old.jobs.items at d))).held ≡ false }
        ensures sound { (store : FileStore) → KeepsSound self.old [] store self.new [] store }
        ensures passed { (d : Job) → HasPassed (slice_index_or self.old.jobs.items at d)
            (slice_index_or self.new.jobs.items at d) }
        ensures others { (k : ℕ) (d : Job) → k ≢ at → slice_index_or self.new.jobs.items k d
            ≡ slice_index_or self.old.jobs.items k d }
        ensures slots { self.new.slots ≡ self.old.slots }
        ensures left { (d : Job) → result + 1
            ≡ length (slice_index_or self.old.jobs.items at d).left.items }
        ensures next { self.new.next ≡ self.old.next }
    {
        self.jobs[at].pass();
        self.jobs[at].left.len() as u64
    }

    /// Answers whether the job at this place has nothing left to be fetched.
    pub fn ready(&self, at: usize) -> Result<(), JobFault>
        requires { at < length self.now.jobs.items }
        ensures left { (d : Job) → 0 < length (slice_index_or self.now.jobs.items at d).left.items
            → result ≡ Err (NotReady
            (length (slice_index_or self.now.jobs.items at d).left.items)) }
        ensures ready { (d : Job) → length (slice_index_or self.now.jobs.items at d).left.items ≡ 0
            → IsOk result }
    {
        let left = self.jobs[at].left.len() as u64;
        if left > 0 {
            return Err(JobFault::NotReady { left });
        }
        Ok(())
    }

    /// The job at this place is an installed one from now on, and is a job no more. The content of
    /// each of its program files is the tables' already; the blocks of its data files become
    /// theirs. It takes no memory.
    pub fn take_out(&mut self, at: usize)
        requires open { at < length self.old.jobs.items }
        requires sound { (kept : Kept) × (store : FileStore)
            × IsSound kept self.old [] [] store }
        requires programs { (d : Job) → All (λ slot.
            (slot_at self.old.slots.items slot).local ≡ false
            → (slot_at self.old.slots.items slot).held ≡ Nothing)
            (slice_index_or self.old.jobs.items at d).needs.items }
        ensures sound { (d : Job) (before after : Kept) (store : FileStore)
            → Receives before after self.old.slots.items
            (slice_index_or self.old.jobs.items at d).needs.items
            → IsSound before self.old [] [] store → IsSound after self.new [] [] store }
        ensures gone { self.new.jobs.items ≡ remove self.old.jobs.items at }
        ensures others { KeepNeeded self.old.slots.items self.new.slots.items }
        ensures next { self.new.next ≡ self.old.next }
    {
        let job = self.jobs.remove(at);
        hand_over_all(&mut self.slots, &job.needs);
    }

    // Whether as many jobs are open as may be.
    fn is_full(&self) -> bool
        ensures { result ≡ nat_le limits.JOB_LIMIT (vec_len self.now.jobs) }
    {
        self.jobs.len() >= JOB_LIMIT
    }

    // Whether the numbers for jobs are used up.
    fn is_spent(&self) -> bool
        ensures { result ≡ nat_le limits.NUMBER_LIMIT self.now.next }
    {
        self.next >= NUMBER_LIMIT
    }

    // Why no job can be opened now that has these files left, if that is so.
    fn hindrance(
        &self,
        store: &FileStore,
        entries: &[FileEntry],
        left: &[usize],
    ) -> Option<JobFault>
        requires within { All (λ k. k < length entries.now) left.now }
        requires few { length left.now ≤ limits.FILE_COUNT_LIMIT }
        requires sizes { All (λ e. e.size ≤ limits.FILE_SIZE_LIMIT) entries.now }
        ensures { result ≡ hindrance self.now entries.now left.now store.now }
    {
        if self.is_full() {
            return Some(JobFault::JobsFull);
        }
        if self.is_spent() {
            return Some(JobFault::Spent { next: self.next });
        }
        let need = need(&self.slots, entries, left);
        let free = store.free();
        if exceeds(need, free) {
            return Some(JobFault::Full { need, free });
        }
        None
    }

    // Takes what a new job needs: the places of the slots of its files, and the room for it. After
    // an error each job has what it had.
    fn take_slots(
        &mut self,
        alloc: Global,
        store: &mut FileStore,
        entries: &[FileEntry],
        flags: &[bool],
    ) -> Result<Vec<usize>, AllocError>
        requires few { length entries.now ≤ limits.FILE_COUNT_LIMIT }
        requires flags { length flags.now ≡ length entries.now }
        requires sound { (kept : Kept) × Tell flags.now kept entries.now
            × IsSound kept self.old [] [] store.old }
        ensures taken { IfOk result (λ needs.
            HasTaken self.old.slots.items self.new.slots.items needs.items) }
        ensures count { IfOk result (λ needs. length needs.items ≡ length entries.now) }
        ensures suits { IfOk result (λ needs.
            AllSuit self.new.slots.items needs.items entries.now) }
        ensures balanced { OnOk result ((kept : Kept) → Tell flags.now kept entries.now
            → Balanced kept self.old.slots.items [] store.old
            → Balanced kept self.new.slots.items [] store.new) }
        ensures room { OnOk result (vec_len self.new.jobs < vec_capacity self.new.jobs) }
        ensures undone { OnErr result ((kept : Kept) → Tell flags.now kept entries.now
            → IsSound kept self.old [] [] store.old → IsSound kept self.new [] [] store.new) }
        ensures others { KeepNeeded self.old.slots.items self.new.slots.items }
        ensures jobs { self.new.jobs.items ≡ self.old.jobs.items }
        ensures next { self.new.next ≡ self.old.next }
        ensures range { SameRange store.old store.new }
    {
        self.jobs.reserve(1)?;
        let mut needs = Vec::with_capacity(alloc, entries.len())?;
        match refer_all(&mut self.slots, &mut needs, alloc, entries, flags, store) {
            Ok(()) => Ok(needs),
            Err(_) => {
                let_go_all(&mut self.slots, &needs, store);
                Err(AllocError)
            }
        }
    }

    // Opens a job for these files, where nothing hinders it.
    fn open_job(
        &mut self,
        alloc: Global,
        store: &mut FileStore,
        entries: Vec<FileEntry>,
        flags: &[bool],
        left: Vec<usize>,
    ) -> Result<u64, JobFault>
        requires few { length entries.items ≤ limits.FILE_COUNT_LIMIT }
        requires flags { length flags.now ≡ length entries.items }
        requires wanted { IsWanted flags.now entries.items left.items }
        requires room { length self.old.jobs.items < limits.JOB_LIMIT }
        requires number { self.old.next < limits.NUMBER_LIMIT }
        requires sound { (kept : Kept) × Tell flags.now kept entries.items
            × IsSound kept self.old [] [] store.old }
        ensures sound { (kept : Kept) → Tell flags.now kept entries.items
            → IsSound kept self.old [] [] store.old → IsSound kept self.new [] [] store.new }
        ensures ok { IfOk result (λ number. number ≡ self.old.next) }
        ensures opened { OnOk result (Opens entries.items left.items self.old self.new) }
        ensures others { KeepNeeded self.old.slots.items self.new.slots.items }
        ensures fresh { OnOk result (AreFresh self.old.slots.items self.new.slots.items) }
        ensures memory { IfErr result (λ fault. fault ≡ Memory) }
        ensures jobs { OnErr result (self.new.jobs.items ≡ self.old.jobs.items) }
        ensures next { OnErr result (self.new.next ≡ self.old.next) }
        ensures range { SameRange store.old store.new }
    {
        match self.take_slots(alloc, store, &entries, flags) {
            Ok(needs) => {
                let number = self.next;
                self.jobs.push_reserved(Job {
                    number,
                    entries,
                    needs,
                    left,
                });
                self.next = number + 1;
                Ok(number)
            }
            Err(_) => {
                drop(entries);
                drop(left);
                Err(JobFault::Memory)
            }
        }
    }

    /// Opens a job for a release, whose files these are, of which these are left to be fetched (as
    /// places in `entries`, the first of them last). A flag says of each file whether the tables
    /// have blocks for it. The job takes blocks for each content that neither the tables nor a job
    /// counts, and for each data file. The call answers the job's number. Where jobs, numbers or
    /// blocks do not suffice, nothing has changed. `Memory`: there was none; the jobs are as they
    /// were, and the blocks that were free are free.
    pub fn begin(
        &mut self,
        alloc: Global,
        store: &mut FileStore,
        entries: Vec<FileEntry>,
        flags: &[bool],
        left: Vec<usize>,
    ) -> Result<u64, JobFault>
        requires few { length entries.items ≤ limits.FILE_COUNT_LIMIT }
        requires sizes { All (λ e. e.size ≤ limits.FILE_SIZE_LIMIT) entries.items }
        requires flags { length flags.now ≡ length entries.items }
        requires few_left { length left.items ≤ limits.FILE_COUNT_LIMIT }
        requires wanted { IsWanted flags.now entries.items left.items }
        requires sound { (kept : Kept) × Tell flags.now kept entries.items
            × IsSound kept self.old [] [] store.old }
        ensures sound { (kept : Kept) → Tell flags.now kept entries.items
            → IsSound kept self.old [] [] store.old → IsSound kept self.new [] [] store.new }
        ensures ok { IfOk result (λ number. number ≡ self.old.next) }
        ensures opened { OnOk result (Opens entries.items left.items self.old self.new) }
        ensures others { KeepNeeded self.old.slots.items self.new.slots.items }
        ensures fresh { OnOk result (AreFresh self.old.slots.items self.new.slots.items) }
        ensures hindered { (fault : JobFault)
            → hindrance self.old entries.items left.items store.old ≡ Some fault
            → result ≡ Err fault }
        ensures only { IfErr result (λ fault. fault ≢ Memory
            → hindrance self.old entries.items left.items store.old ≡ Some fault) }
        ensures unchanged { IfErr result (λ fault. fault ≢ Memory
            → (self.new ≡ self.old) × (store.new ≡ store.old)) }
        ensures jobs { OnErr result (self.new.jobs.items ≡ self.old.jobs.items) }
        ensures next { OnErr result (self.new.next ≡ self.old.next) }
        ensures range { SameRange store.old store.new }
    {
        match self.hindrance(store, &entries, &left) {
            Some(fault) => {
                drop(entries);
                drop(left);
                Err(fault)
            }
            None => self.open_job(alloc, store, entries, flags, left),
        }
    }
}
