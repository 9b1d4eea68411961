ghost use Rattle.std.specs.Prelude.{◌≡◌};

/// What there may be too many of.
#[derive(Clone, Copy, Debug, PartialEq, Eq)]
pub enum Limit {
    /// Applications of a store.
    Applications,
    /// Kept views of a store.
    Views,
    /// Listed files.
    Files,
    /// Data files.
    Locals,
    /// `hash` elements of a file.
    Hashes,
    /// Links of a session.
    Links,
    /// Open jobs of a session.
    Jobs,
}

impl Limit {
    ghost use Rattle.small_types.specs.Limit.{limit_text};

    /// The word that lines have for it.
    pub fn word(self) -> &'static [u8]
        ensures { result.now ≡ limit_text self }
    {
        match self {
            Limit::Applications => b"applications",
            Limit::Views => b"views",
            Limit::Files => b"files",
            Limit::Locals => b"locals",
            Limit::Hashes => b"hashes",
            Limit::Links => b"links",
            Limit::Jobs => b"jobs",
        }
    }
}
