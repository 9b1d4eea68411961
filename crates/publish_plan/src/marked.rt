// What marks say of the files that are published.
ghost use Rattle.std.specs.Prelude.{◌≡◌, true, ◌∷◌, [], ℕ, Bool, List, IfOk, IfErr, OnOk, not, Some, None, option_copied, option_map, if◌then◌else◌, length};
ghost use Rattle.std.specs.BTreeMap.{get};
ghost use Rattle.std.specs.Option.{option_or};
ghost use Rattle.std.specs.Str.{bytes_eq};
ghost use Rattle.small_types.specs.Name.{IsName};
ghost use Rattle.publish_plan.specs.Marks.{group_in, is_local, is_among, bad_mark};
ghost use Rattle.publish_plan.specs.Paths.{CanFollow};
ghost use Rattle.publish_plan.specs.Places.{all_behind, behind, has_front, front_of};
ghost use Rattle.publish_plan.specs.Seen.{row, more, unmarked, is_fresh, Knows, Adds};

use crate::places::{has_front, name_behind};
use crate::{Mark, MarkKind, PlanFault};
use small_types::{CopyFault, Duplicate, Name, Text};
use std::alloc::{AllocError, Global};
use std::collections::BTreeMap;

/// What is known of a file.
#[derive(Drop)]
pub(crate) struct Seen {
    /// Whether a mark named it.
    pub(crate) named: bool,
    /// Whether a mark makes it a data file.
    pub(crate) local: bool,
    /// The group that the first mark that named it gives it.
    pub(crate) group: Option<Text>,
}

/// The files that are published, and what all marks say of them.
#[derive(Drop)]
pub(crate) struct Marked {
    pub(crate) table: BTreeMap<Name, Seen>,
    /// The file of the first mark that names no file, or one that an earlier mark named.
    pub(crate) bad: Option<Name>,
}

// The group that the mark gives its file.
fn group_in(alloc: Global, kind: &MarkKind) -> Result<Option<Text>, CopyFault>
    ensures { IfOk result (λ made. made ≡ group_in kind.now) }
{
    match kind {
        MarkKind::Local => Ok(None),
        MarkKind::Group(group) => Ok(Some(group.copy(alloc)?)),
    }
}

// Whether the mark makes its file a data file.
fn is_local(kind: &MarkKind) -> bool
    ensures { result ≡ is_local kind.now }
{
    matches!(kind, MarkKind::Local)
}

impl Seen {
    // No mark named it.
    fn new() -> Seen
        ensures { result ≡ unmarked }
    {
        Seen {
            named: false,
            local: false,
            group: None,
        }
    }

    // The group that counts with one more mark that names it.
    fn group_with(&self, alloc: Global, mark: &Mark) -> Result<Option<Text>, CopyFault>
        ensures { IfOk result (λ made. made
            ≡ (if self.now.named then self.now.group else group_in mark.now.kind)) }
    {
        if self.named {
            return self.group.copy(alloc);
        }
        group_in(alloc, &mark.kind)
    }

    // What is known with one more mark that names it.
    fn with(&self, alloc: Global, mark: &Mark) -> Result<Seen, CopyFault>
        ensures { IfOk result (λ made. made ≡ more self.now mark.now) }
    {
        let group = self.group_with(alloc, mark)?;
        Ok(Seen {
            named: true,
            local: self.local || is_local(&mark.kind),
            group,
        })
    }
}

// Puts the file of the name, which begins with the front, into the table.
fn add_file(
    alloc: Global,
    table: &mut BTreeMap<Name, Seen>,
    front: &[u8],
    name: &Name,
) -> Result<(), PlanFault>
    requires fits { CanFollow front.now }
    requires below { has_front front.now name.now ≡ true }
    ensures added { OnOk result ((q : List ℕ) → row table.new q
        ≡ (if bytes_eq (behind front.now name.now) q then Some unmarked else row table.old q)) }
    ensures memory { IfErr result (λ e. e ≡ PlanFault.Memory) }
{
    let file = name_behind(alloc, front, name)?;
    table.insert(file, Seen::new())?;
    Ok(())
}

// The files that are published, none of them marked.
fn index(alloc: Global, front: &[u8], names: &[Name]) -> Result<BTreeMap<Name, Seen>, PlanFault>
    requires { CanFollow front.now }
    ensures known { IfOk result (λ table. Knows table (all_behind front.now names.now) []) }
    ensures memory { IfErr result (λ e. e ≡ PlanFault.Memory) }
{
    let mut table = BTreeMap::new(alloc);
    for name in names {
        if has_front(front, name) {
            add_file(alloc, &mut table, front, name)?;
        }
    }
    Ok(table)
}

// Adds what a mark says, and answers whether it names a file that no earlier mark named.
fn add_mark(alloc: Global, table: &mut BTreeMap<Name, Seen>, mark: &Mark) -> Result<bool, PlanFault>
    ensures added { OnOk result (Adds table.old table.new mark.now) }
    ensures good { IfOk result (λ good. good ≡ is_fresh (row table.old mark.now.file)) }
    ensures memory { IfErr result (λ e. e ≡ PlanFault.Memory) }
{
    let Some(seen) = table.get(&mark.file) else {
        return Ok(false);
    };
    let is_first = !seen.named;
    let seen = seen.with(alloc, mark)?;
    let file = mark.file.copy(alloc)?;
    table.insert(file, seen)?;
    Ok(is_first)
}

// The file of the first bad mark, with one more mark.
fn bad_with(
    alloc: Global,
    bad: Option<Name>,
    is_good: bool,
    mark: &Mark,
) -> Result<Option<Name>, PlanFault>
    ensures made { IfOk result (λ made. made
        ≡ option_or bad (if is_good then None else Some mark.now.file)) }
    ensures memory { IfErr result (λ e. e ≡ PlanFault.Memory) }
{
    if is_good || bad.is_some() {
        return Ok(bad);
    }
    Ok(Some(mark.file.copy(alloc)?))
}

impl Marked {
    /// What the marks say of the files whose names have the front. It fails only for want of
    /// memory.
    pub(crate) fn new(
        alloc: Global,
        front: &[u8],
        names: &[Name],
        marks: &[Mark],
    ) -> Result<Marked, PlanFault>
        requires { CanFollow front.now }
        ensures known { IfOk result
            (λ m. Knows m.table (all_behind front.now names.now) marks.now) }
        ensures bad { IfOk result
            (λ m. m.bad ≡ bad_mark (all_behind front.now names.now) [] marks.now) }
        ensures memory { IfErr result (λ e. e ≡ PlanFault.Memory) }
    {
        let mut table = index(alloc, front, names)?;
        let mut bad = None;
        for mark in marks {
            let is_good = add_mark(alloc, &mut table, mark)?;
            bad = bad_with(alloc, bad, is_good, mark)?;
        }
        Ok(Marked { table, bad })
    }

    /// What is known of the file, where it is published.
    pub(crate) fn get(&self, file: &Name) -> Option<&Seen>
        ensures { option_copied result ≡ row self.now.table file.now }
    {
        self.table.get(file)
    }
}
