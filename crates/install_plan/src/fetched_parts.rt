// The files of a new view: what was fetched for it.
ghost use Rattle.std.specs.Prelude.{◌≡◌, ◌<◌, ◌≤◌, [], ◌∷◌, ◌++◌, All, IfErr, IfOk, OnOk, length};
ghost use Rattle.std.specs.Option.{option_copied};
ghost use Rattle.machine.specs.declared.reply.Reply.TheVariants.{Memory};
ghost use Rattle.table_files.specs.Held.{held_for_locals};
ghost use Rattle.install_plan.specs.Changes.{content_for, contents_for, fetched_local, listed_at, local_part, program_part};
ghost use Rattle.install_plan.specs.Parts.{entry_for};

use crate::WantedFile;
use file_store::Draft;
use machine::Reply;
use manifests::FileEntry;
use small_types::{CopyFault, Duplicate, List, Name};
use std::alloc::{AllocError, AllocFailed, Global};
use store_state::{Content, LocalFile, Stored};

// What was fetched: contents of program files, and data files.
#[derive(Drop)]
pub(crate) struct Parts {
    pub(crate) programs: Vec<Content>,
    pub(crate) locals: Vec<LocalFile>,
}

// The data file of that name and of so many bytes that is held so.
pub(crate) fn data_file(
    alloc: Global,
    name: &Name,
    length: u64,
    held: Stored,
) -> Result<LocalFile, Reply>
    ensures made { IfOk result (λ file. file
        ≡ record { name = name.now; length = length; held = held }) }
    ensures memory { IfErr result (λ reply. reply ≡ Memory) }
{
    match name.copy(alloc) {
        Ok(name) => Ok(LocalFile { name, length, held }),
        Err(CopyFault::Memory) => Err(Reply::Memory),
    }
}

// The listed file that the content at that place was fetched for.
fn entry_for<'a>(
    files: &'a [FileEntry],
    wanted: &[WantedFile],
    place: usize,
) -> Option<&'a FileEntry>
    ensures { option_copied result ≡ entry_for files.now wanted.now place }
{
    match wanted.get(place) {
        Some(file) => files.get(file.place),
        None => None,
    }
}

impl Parts {
    // Adds the content of the file, in the part that it belongs to.
    fn add(
        &mut self,
        alloc: Global,
        listed: Option<&FileEntry>,
        content: Content,
    ) -> Result<(), Reply>
        ensures programs { OnOk result (self.new.programs.items ≡ self.old.programs.items
            ++ program_part (option_copied listed.entry ∷ []) (content ∷ [])) }
        ensures locals { OnOk result (self.new.locals.items ≡ self.old.locals.items
            ++ fetched_local (option_copied listed.entry) content) }
        ensures memory { IfErr result (λ reply. reply ≡ Memory) }
    {
        let Some(entry) = listed else {
            return self.add_program(content);
        };
        if !entry.local {
            return self.add_program(content);
        }
        self.add_local(alloc, &entry.name, content.size, content.held)
    }

    // Adds a data file of that name and of so many bytes that is held so.
    fn add_local(
        &mut self,
        alloc: Global,
        name: &Name,
        length: u64,
        held: Stored,
    ) -> Result<(), Reply>
        ensures programs { OnOk result (self.new.programs.items ≡ self.old.programs.items) }
        ensures locals { OnOk result (self.new.locals.items ≡ self.old.locals.items
            ++ record { name = name.now; length = length; held = held } ∷ []) }
        ensures memory { IfErr result (λ reply. reply ≡ Memory) }
    {
        let file = match data_file(alloc, name, length, held) {
            Ok(file) => file,
            Err(reply) => return Err(reply),
        };
        match self.locals.push(file) {
            Ok(()) => Ok(()),
            Err(AllocFailed { .. }) => Err(Reply::Memory),
        }
    }

    // Adds the content of a program file.
    fn add_program(&mut self, content: Content) -> Result<(), Reply>
        ensures programs { OnOk result (self.new.programs.items
            ≡ self.old.programs.items ++ content ∷ []) }
        ensures locals { OnOk result (self.new.locals.items ≡ self.old.locals.items) }
        ensures memory { IfErr result (λ reply. reply ≡ Memory) }
    {
        match self.programs.push(content) {
            Ok(()) => Ok(()),
            Err(AllocFailed { .. }) => Err(Reply::Memory),
        }
    }
}

// The content of a file that came into a draft.
fn content_in(alloc: Global, entry: &FileEntry, draft: &Draft) -> Result<Content, Reply>
    ensures made { IfOk result (λ content. content ≡ content_for entry.now draft.now) }
    ensures memory { IfErr result (λ reply. reply ≡ Memory) }
{
    let list = match entry.list.copy(alloc) {
        Ok(list) => list,
        Err(CopyFault::Memory) => return Err(Reply::Memory),
    };
    match draft.blocks().copy(alloc) {
        Ok(held) => Ok(Content {
            size: entry.size,
            list,
            held,
        }),
        Err(CopyFault::Memory) => Err(Reply::Memory),
    }
}

// The contents of the wanted files, each of the draft at its place.
pub(crate) fn contents_of(
    alloc: Global,
    files: &[FileEntry],
    wanted: &[WantedFile],
    drafts: &[Draft],
) -> Result<List<Content>, Reply>
    requires each { length wanted.now ≤ length drafts.now }
    requires within { All (λ file. file.place < length files.now) wanted.now }
    ensures contents { IfOk result (λ contents. contents
        ≡ contents_for (listed_at files.now wanted.now) drafts.now) }
    ensures memory { IfErr result (λ reply. reply ≡ Memory) }
{
    let mut contents = Vec::new(alloc);
    for place in 0..wanted.len() {
        let entry = &files[wanted[place].place];
        let content = match content_in(alloc, entry, &drafts[place]) {
            Ok(content) => content,
            Err(reply) => return Err(reply),
        };
        if let Err(AllocFailed { .. }) = contents.push(content) {
            return Err(Reply::Memory);
        }
    }
    Ok(List::from_vec(contents))
}

// What was fetched of the wanted files, in their order: a content for each.
pub(crate) fn parts_of(
    alloc: Global,
    files: &[FileEntry],
    wanted: &[WantedFile],
    contents: List<Content>,
) -> Result<Parts, Reply>
    requires each { length contents ≡ length wanted.now }
    ensures programs { IfOk result (λ parts. parts.programs.items
        ≡ program_part (listed_at files.now wanted.now) contents) }
    ensures locals { IfOk result (λ parts. parts.locals.items
        ≡ local_part (listed_at files.now wanted.now) contents) }
    ensures memory { IfErr result (λ reply. reply ≡ Memory) }
{
    let mut parts = Parts {
        programs: Vec::new(alloc),
        locals: Vec::new(alloc),
    };
    let mut place: usize = 0;
    for content in contents.into_vec() {
        let entry = entry_for(files, wanted, place);
        if let Err(reply) = parts.add(alloc, entry, content) {
            return Err(reply);
        }
        place += 1;
    }
    Ok(parts)
}

// The blocks of these data files, one file after another.
pub(crate) fn blocks_of(alloc: Global, files: &[LocalFile]) -> Result<List<u32>, Reply>
    ensures blocks { IfOk result (λ blocks. blocks ≡ held_for_locals files.now) }
    ensures memory { IfErr result (λ reply. reply ≡ Memory) }
{
    let mut blocks = Vec::new(alloc);
    for file in files {
        match blocks.extend_from_slice(file.held.as_slice()) {
            Ok(()) => {}
            Err(AllocError) => return Err(Reply::Memory),
        }
    }
    Ok(List::from_vec(blocks))
}
