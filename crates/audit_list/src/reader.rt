// The list that a text says.
ghost use Rattle.std.specs.Prelude.{◌≡◌, ◌≤◌, ◌<◌, ◌⊎◌, [], ◌∷◌, ◌++◌, length, Ok, Err, OnOk, OnErr};
ghost use Rattle.audit_list.specs.declared.fault.AuditTextFault.TheVariants.{Memory, Text};
ghost use Rattle.audit_list.specs.declared.list.AuditList.{AuditList};
ghost use Rattle.audit_list.specs.Reads.{Reads};
ghost use Rattle.audit_list.specs.Text.{IsAuditList, audit_text};

use crate::heads::read_head;
use crate::lines::read_line;
use crate::{AuditLine, AuditList, AuditTextFault};
use small_types::{List, cut_once};
use std::alloc::Global;

/// The most bytes that `read_limited_audit` reads a list from.
pub const AUDIT_TEXT_LIMIT: usize = 4_194_304;

/// The most bytes that a list is read from.
pub fn audit_numbers_are()
    ensures { AUDIT_TEXT_LIMIT ≡ 4_194_304 }
{}

// Adds a line.
fn keep(lines: &mut Vec<AuditLine>, line: AuditLine) -> Result<(), AuditTextFault>
    ensures kept { OnOk result (lines.new.items ≡ lines.old.items ++ line ∷ []) }
    ensures fault { result ≡ Ok tt ⊎ (result ≡ Err Memory) }
{
    match lines.push(line) {
        Ok(()) => Ok(()),
        Err(fault) => {
            drop(fault);
            Err(AuditTextFault::Memory)
        }
    }
}

// The list, where the bytes are the text of one.
fn read_text(alloc: Global, bytes: &[u8]) -> Result<AuditList, AuditTextFault>
    ensures { Reads bytes.now result }
{
    let Some((head, behind)) = cut_once(bytes, b'\n') else {
        return Err(AuditTextFault::Text { line: 0 });
    };
    let Some(count) = read_head(head) else {
        return Err(AuditTextFault::Text { line: 0 });
    };
    let mut lines = Vec::new(alloc);
    let mut rest = behind;
    while (lines.len() as u64) < count {
        let number = lines.len() as u64 + 1;
        let Some((text, more)) = cut_once(rest, b'\n') else {
            return Err(AuditTextFault::Text { line: number });
        };
        let Ok(read) = read_line(alloc, text) else {
            return Err(AuditTextFault::Memory);
        };
        let Some(line) = read else {
            return Err(AuditTextFault::Text { line: number });
        };
        keep(&mut lines, line)?;
        rest = more;
    }
    if !rest.is_empty() {
        return Err(AuditTextFault::Text {
            line: lines.len() as u64 + 1,
        });
    }
    Ok(AuditList {
        lines: List::from_vec(lines),
    })
}

/// The list whose text the bytes are, from the first of them to the last. `Text` comes exactly where they are no
/// list's, and names the first line, from 0, with which they begin none's.
pub fn read_audit(alloc: Global, bytes: &[u8]) -> Result<AuditList, AuditTextFault>
    ensures reads { Reads bytes.now result }
    ensures again { (list : AuditList) → IsAuditList list → audit_text list ≡ bytes.now
        → (result ≡ Ok list) ⊎ (result ≡ Err Memory) }
{
    read_text(alloc, bytes)
}

/// The same of at most 4,194,304 bytes. Of more it reads none, and answers `Text` at line 0.
pub fn read_limited_audit(alloc: Global, bytes: &[u8]) -> Result<AuditList, AuditTextFault>
    ensures reads { length bytes.now ≤ AUDIT_TEXT_LIMIT → Reads bytes.now result }
    ensures long { AUDIT_TEXT_LIMIT < length bytes.now → result ≡ Err (Text 0) }
{
    if bytes.len() > AUDIT_TEXT_LIMIT {
        return Err(AuditTextFault::Text { line: 0 });
    }
    read_text(alloc, bytes)
}
