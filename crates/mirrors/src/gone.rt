// Links in boxes that are gone.
ghost use Rattle.std.specs.Prelude.{[], ◌∷◌};

use call_record::Notes;
use links::Link;

/// A link that is gone: the place that it had, how often it had failed, and its box as it was. No memory holds one: a
/// `Record` has them, for clauses alone.
#[derive(Drop)]
pub struct Gone {
    pub place: u32,
    pub count: u64,
    pub link: Box<dyn Link>,
}

// A link that goes.
#[derive(Clone, Copy)]
pub(crate) struct GoneNote<'a> {
    pub(crate) place: u32,
    pub(crate) count: u64,
    pub(crate) link: &'a Box<dyn Link>,
}

impl Notes<Gone> for GoneNote<'_> {
    ghost notes = { λ n. record { place = n.place; count = n.count; link = n.link.now } ∷ [] };
}
