// What a generated run came to.
ghost use Rattle.std.specs.Prelude.{◌≡◌, ◌++◌, IfOk, codes, decimal, string_bytes};
ghost use Rattle.demo.specs.Summary.{summary_line};

use std::alloc::{AllocError, Global};

/// What an install came to.
#[derive(Clone, Copy, Debug, PartialEq, Eq)]
pub struct Installed {
    /// How many targets it asked for.
    pub asked: u64,
    /// How many blocks were used behind it.
    pub blocks: u64,
}

/// What a generated run came to.
#[derive(Clone, Copy, Debug, PartialEq, Eq)]
pub struct Summary {
    pub seed: u64,
    /// The installs, in their order.
    pub one: Installed,
    pub two: Installed,
    pub three: Installed,
    /// How many blocks were used at the end.
    pub blocks: u64,
}

// Three numbers, with spaces between them.
fn three_numbers(alloc: Global, a: u64, b: u64, c: u64) -> Result<String, AllocError>
    ensures { IfOk result (λ text. string_bytes text
        ≡ decimal a ++ (codes " " ++ (decimal b ++ (codes " " ++ decimal c)))) }
{
    format!(in alloc; "{a} {b} {c}")
}

impl Summary {
    /// The line that says it, with its line feed. It fails only for want of memory.
    #[tactic(auto, unfolding(crate::specs::Summary::summary_line))]
    pub fn line(&self, alloc: Global) -> Result<String, AllocError>
        ensures { IfOk result (λ line. string_bytes line ≡ summary_line self.now) }
    {
        let Summary {
            seed,
            one,
            two,
            three,
            blocks,
        } = *self;
        let asked = three_numbers(alloc, one.asked, two.asked, three.asked)?;
        let used = three_numbers(alloc, one.blocks, two.blocks, three.blocks)?;
        format!(in alloc; "demo {seed} files 200 asked {asked} blocks {used} {blocks}\n")
    }
}
