// The list of an audit.
ghost use Rattle.std.specs.Prelude.{◌≡◌, IfOk};
ghost use Rattle.audit_list.specs.Text.{audit_text};

use crate::AuditLine;
use crate::printed_lines::{print_head, print_lines};
use small_types::{Bytes, List, PrintFault};
use std::alloc::Global;

/// What an audit says of a store: a line for each of its contents.
#[derive(Drop, Debug, PartialEq, Eq)]
pub struct AuditList {
    pub lines: List<AuditLine>,
}

impl AuditList {
    /// Its text: how many lines follow, and then each of them. `read_audit` reads it. It fails only for want of
    /// memory.
    pub fn print(&self, alloc: Global) -> Result<Bytes, PrintFault>
        ensures { IfOk result (λ text. text ≡ audit_text self.now) }
    {
        let mut out = Bytes::from_vec(Vec::new(alloc));
        let lines = self.lines.as_slice();
        print_head(&mut out, lines.len() as u64)?;
        print_lines(alloc, &mut out, lines)?;
        Ok(out)
    }
}
