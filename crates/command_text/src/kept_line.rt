// What is kept of a line that has not ended.
ghost use Rattle.std.specs.Prelude.{◌≡◌, ◌+◌, ◌≤◌, ◌++◌, length, if◌then◌else◌, is_ok};
ghost use Rattle.small_types.specs.declared.limits.TheConstants as limits;
ghost use Rattle.command_text.specs.Input.{KeptBytesTell, kept_of};

use small_types::limits::LINE_LIMIT;
use std::alloc::AllocError;

/// The most bytes that are kept of a line: the longest one, the carriage return that may stand behind it, and one more,
/// which shows that the line is too long.
pub const KEPT_LIMIT: usize = LINE_LIMIT + 2;

/// The number of that limit.
pub fn kept_limit_is()
    ensures { KEPT_LIMIT ≡ 65_538 }
{}

/// Adds bytes to what is kept of a line that has not ended. They have no line feed. Behind the limit they are passed
/// over: the line is too long, whatever they are. Where there is no memory the line stays as it was.
pub fn keep(pending: &mut Vec<u8>, part: &[u8]) -> Result<(), AllocError>
    requires { length pending.old.items ≤ limits.LINE_LIMIT + 2 }
    ensures kept { pending.new.items ≡ (if is_ok result
        then kept_of (pending.old.items ++ part.now) else pending.old.items) }
    ensures within { length pending.new.items ≤ limits.LINE_LIMIT + 2 }
{
    let room = KEPT_LIMIT - pending.len();
    pending.extend_from_slice(&part[..part.len().min(room)])
}

/// The bytes that are kept of lines tell what the lines ask for.
pub fn kept_bytes_tell()
    ensures { KeptBytesTell }
{}
