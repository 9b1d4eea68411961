// Why files of a line did not come.
ghost use Rattle.std.specs.Prelude.{◌≢◌, ℕ};
ghost use Rattle.line_drafts.specs.declared.fault.DraftFault.TheVariants as drafts;
ghost use Rattle.install_plan.specs.Lacks.{IsLackOf};

use line_drafts::DraftFault;
use machine::Reply;

/// Why files of a line did not come.
#[derive(Drop)]
pub(crate) enum Lack {
    /// No link gave one, or there was no memory.
    Reply { reply: Reply },
    /// The disk failed.
    DiskFault,
}

// What a draft's fault comes to, where there are as many blocks as are needed.
pub(crate) fn lack_of(fault: DraftFault) -> Lack
    requires { (need free : ℕ) → fault ≢ drafts.Full need free }
    ensures { IsLackOf fault result }
{
    match fault {
        DraftFault::AllLinks { target, causes } => Lack::Reply {
            reply: Reply::AllLinks { target, causes },
        },
        DraftFault::Memory => Lack::Reply {
            reply: Reply::Memory,
        },
        DraftFault::DiskFault => Lack::DiskFault,
        DraftFault::Full { .. } => unreachable!(),
    }
}
