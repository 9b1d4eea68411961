// A line of a list.
ghost use Rattle.std.specs.Prelude.{◌≡◌, IfOk};
ghost use Rattle.small_types.specs.Cuts.{parts_between};
ghost use Rattle.audit_list.specs.Words.{bad_words, good_words, line_of};

use crate::causes::read_cause;
use crate::numbers::{read_index, read_number};
use crate::parts::{three_parts, two_parts};
use crate::{AuditLine, Verdict};
use small_types::cut_once;
use std::alloc::{AllocError, Global};

// A content that matches, by the words behind the verdict.
fn good_line(words: &[u8]) -> Option<AuditLine>
    ensures { result ≡ good_words (parts_between 32 words.now) }
{
    let (index, size) = two_parts(words, b' ')?;
    let index = read_index(index)?;
    let size = read_number(size)?;
    Some(AuditLine {
        index,
        size,
        verdict: Verdict::Good,
    })
}

// A content that does not match, by the words behind the verdict.
fn bad_line(alloc: Global, words: &[u8]) -> Result<Option<AuditLine>, AllocError>
    ensures { IfOk result (λ line. line ≡ bad_words (parts_between 32 words.now)) }
{
    let Some((index, size, cause)) = three_parts(words, b' ') else {
        return Ok(None);
    };
    let (Some(index), Some(size)) = (read_index(index), read_number(size)) else {
        return Ok(None);
    };
    let Some(difference) = read_cause(alloc, cause)? else {
        return Ok(None);
    };
    Ok(Some(AuditLine {
        index,
        size,
        verdict: Verdict::Bad { difference },
    }))
}

/// What the line says of a content.
pub(crate) fn read_line(alloc: Global, line: &[u8]) -> Result<Option<AuditLine>, AllocError>
    ensures { IfOk result (λ read. read ≡ line_of (parts_between 32 line.now)) }
{
    let Some((verdict, words)) = cut_once(line, b' ') else {
        return Ok(None);
    };
    if verdict == b"good".as_slice() {
        return Ok(good_line(words));
    }
    if verdict == b"bad".as_slice() {
        return bad_line(alloc, words);
    }
    Ok(None)
}
