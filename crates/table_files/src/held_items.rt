// What tables hold for the files that they name.
ghost use Rattle.std.specs.Prelude.{◌≡◌, ◌++◌, IfOk, OnOk};
ghost use Rattle.table_files.specs.Freed.{brought};
ghost use Rattle.table_files.specs.Held.{held_by, held_for_contents, held_for_locals, held_for_views};

use small_types::List;
use std::alloc::{AllocError, Global};
use store_state::{Change, Content, LocalFile, StoreState, Stored, View};

/// An item of what is held for a file: the number of a block.
pub type HeldItem = u32;

// Adds what is held for one file.
pub(crate) fn add_file(items: &mut Vec<HeldItem>, held: &Stored) -> Result<(), AllocError>
    ensures { OnOk result (items.new.items ≡ items.old.items ++ held.now) }
{
    items.extend_from_slice(held.as_slice())?;
    Ok(())
}

// Adds what is held for the contents.
fn add_contents(items: &mut Vec<HeldItem>, contents: &[Content]) -> Result<(), AllocError>
    ensures { OnOk result (items.new.items ≡ items.old.items ++ held_for_contents contents.now) }
{
    for content in contents {
        add_file(items, &content.held)?;
    }
    Ok(())
}

// Adds what is held for the data files.
pub(crate) fn add_locals(items: &mut Vec<HeldItem>, files: &[LocalFile]) -> Result<(), AllocError>
    ensures { OnOk result (items.new.items ≡ items.old.items ++ held_for_locals files.now) }
{
    for file in files {
        add_file(items, &file.held)?;
    }
    Ok(())
}

// Adds what is held for the data files of the views.
fn add_views(items: &mut Vec<HeldItem>, views: &[View]) -> Result<(), AllocError>
    ensures { OnOk result (items.new.items ≡ items.old.items ++ held_for_views views.now) }
{
    for view in views {
        add_locals(items, view.locals.as_slice())?;
    }
    Ok(())
}

/// What the tables hold for files: that of all contents, and then that of the data files of all
/// views, one file after another. It fails only for want of memory.
pub fn held(alloc: Global, state: &StoreState) -> Result<List<HeldItem>, AllocError>
    ensures { IfOk result (λ items. items ≡ held_by state.now) }
{
    let mut items = Vec::new(alloc);
    add_contents(&mut items, state.contents.as_slice())?;
    add_views(&mut items, state.views.as_slice())?;
    Ok(List::from_vec(items))
}

/// What the change brings for files: an install what its contents hold, and then its data files, a
/// group what its contents hold, and a put what its data file holds. It fails only for want of memory.
pub fn brought(alloc: Global, change: &Change) -> Result<List<HeldItem>, AllocError>
    ensures { IfOk result (λ items. items ≡ brought change.now) }
{
    let mut items = Vec::new(alloc);
    match change {
        Change::Install { view, contents, .. } => {
            add_contents(&mut items, contents.as_slice())?;
            add_locals(&mut items, view.locals.as_slice())?;
        }
        Change::Group { contents, .. } => add_contents(&mut items, contents.as_slice())?,
        Change::Put { file, .. } => add_file(&mut items, &file.held)?,
        _ => {}
    }
    Ok(List::from_vec(items))
}
