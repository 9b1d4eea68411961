// Marks of files.
ghost use Rattle.std.specs.Prelude.{◌≡◌, ◌+◌, ◌<◌, ℕ, All, List, None, Some, length, drop, map, IfOk, IfErr, IfSome};
ghost use Rattle.publish_plan.specs.declared.options.Mark.{Mark};
ghost use Rattle.publisher.specs.Options.{IsKind};
ghost use Rattle.publication.specs.Words.{last_colon, last_colon_from, data_mark, cut_mark, group_mark, mark_of, marks_of};
ghost use Rattle.publication.specs.declared.values.WordFault.TheVariants.{Unreadable};

use crate::values::{WordFault, read_file, read_group};
use publish_plan::{Mark, MarkKind};
use small_types::List;
use std::alloc::Global;

// Where the last `:` stands.
pub(crate) fn last_colon(text: &[u8]) -> Option<usize>
    ensures place { result ≡ last_colon text.now }
    ensures within { IfSome result (λ place. place < length text.now) }
{
    let mut found = None;
    for (place, byte) in text.iter().enumerate() {
        if *byte == b':' {
            found = Some(place);
        }
    }
    found
}

// `FILE`
#[tactic(auto, unfolding(crate::specs::Words::data_mark))]
fn read_data(alloc: Global, text: &[u8]) -> Result<Mark, WordFault>
    ensures value { IfOk result (λ m. data_mark text.now ≡ Some m) }
    ensures fit { IfOk result (λ m. IsKind m.kind) }
    ensures none { IfErr result (λ e. e ≡ Unreadable → data_mark text.now ≡ None) }
{
    let file = read_file(alloc, text)?;
    Ok(Mark {
        kind: MarkKind::Local,
        file,
    })
}

// `GROUP:FILE`, cut at this place.
fn read_cut(alloc: Global, text: &[u8], place: usize) -> Result<Mark, WordFault>
    requires { place < length text.now }
    ensures value { IfOk result (λ m. cut_mark text.now place ≡ Some m) }
    ensures fit { IfOk result (λ m. IsKind m.kind) }
    ensures none { IfErr result (λ e. e ≡ Unreadable → cut_mark text.now place ≡ None) }
{
    let group = read_group(alloc, &text[..place])?;
    let file = read_file(alloc, &text[place + 1..])?;
    Ok(Mark {
        kind: MarkKind::Group(group),
        file,
    })
}

// `GROUP:FILE`
#[tactic(auto, unfolding(crate::specs::Words::group_mark))]
fn read_grouped(alloc: Global, text: &[u8]) -> Result<Mark, WordFault>
    ensures value { IfOk result (λ m. group_mark text.now ≡ Some m) }
    ensures fit { IfOk result (λ m. IsKind m.kind) }
    ensures none { IfErr result (λ e. e ≡ Unreadable → group_mark text.now ≡ None) }
{
    match last_colon(text) {
        None => Err(WordFault::Unreadable),
        Some(place) => read_cut(alloc, text, place),
    }
}

// `data:FILE` or `group:GROUP:FILE`
#[tactic(auto, unfolding(crate::specs::Words::mark_of))]
fn read_mark(alloc: Global, word: &[u8]) -> Result<Mark, WordFault>
    ensures value { IfOk result (λ m. mark_of word.now ≡ Some m) }
    ensures fit { IfOk result (λ m. IsKind m.kind) }
    ensures none { IfErr result (λ e. e ≡ Unreadable → mark_of word.now ≡ None) }
{
    if word.starts_with(b"data:") {
        return read_data(alloc, &word[5..]);
    }
    if word.starts_with(b"group:") {
        return read_grouped(alloc, &word[6..]);
    }
    Err(WordFault::Unreadable)
}

// All of them.
#[tactic(auto, using(crate::proofs::NextMark::one_more), unfolding(crate::specs::Words::marks_of))]
pub(crate) fn read_marks(alloc: Global, words: &[&str]) -> Result<List<Mark>, WordFault>
    ensures value { IfOk result (λ marks. marks_of (map (λ s. s.now) words.now) ≡ Some marks) }
    ensures fit { IfOk result (λ marks. All (λ (m : Mark). IsKind m.kind) marks) }
    ensures none { IfErr result (λ e. e ≡ Unreadable
        → marks_of (map (λ s. s.now) words.now) ≡ None) }
{
    let mut marks = Vec::new(alloc);
    for word in words {
        marks.push(read_mark(alloc, word.as_bytes())?)?;
    }
    Ok(List::from_vec(marks))
}
