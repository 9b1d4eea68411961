// A content that is being written.
ghost use Rattle.std.specs.Prelude.{◌≡◌, ◌≤◌, length};
ghost use Rattle.small_types.specs.Blocks.{AreApart, count_for};
ghost use Rattle.small_types.specs.declared.limits.TheConstants.{BLOCK_LIMIT};

use small_types::List;

/// A content that is being written: the blocks that `begin` took for it, how many bytes it is to
/// have, and how many of them it was given so far.
#[derive(Drop, Debug)]
pub struct Draft {
    pub(crate) blocks: List<u32>,
    pub(crate) size: u64,
    pub(crate) filled: u64,
    ghost counted: { length blocks ≡ count_for size },
    ghost within: { filled ≤ size },
    ghost few: { length blocks ≤ BLOCK_LIMIT },
    ghost apart: { AreApart blocks },
}

impl Draft {
    ghost use Rattle.file_store.specs.Stores.{draft_blocks, draft_size, filled_of};

    /// How many bytes it is to have.
    pub fn size(&self) -> u64
        ensures { result ≡ draft_size self.now }
    {
        self.size
    }

    /// How many bytes it was given.
    pub fn filled(&self) -> u64
        ensures within { result ≤ draft_size self.now }
        ensures value { result ≡ filled_of self.now }
    {
        self.filled
    }

    /// Its blocks, in the order of its bytes.
    pub fn blocks(&self) -> &List<u32>
        ensures { result.now ≡ draft_blocks self.now }
    {
        &self.blocks
    }

    /// The blocks of a draft, in the order of its bytes, in place of the draft.
    pub fn into_blocks(self) -> List<u32>
        ensures { result ≡ draft_blocks self }
    {
        let Draft { blocks, .. } = self;
        blocks
    }
}
