// What is true of blocks in lists of bytes, with no code.
ghost use Rattle.small_types.specs.BlockLaws.{BytesAreContent, ContentStands, ContentStays, ContentStaysBehind, FrontStays, OneContent, StandsIsContent};

/// A content stays while blocks of others are written, and while anything before the blocks is.
/// What stands before the blocks stays while they are written.
pub fn contents_stay()
    ensures others { ContentStays }
    ensures behind { ContentStaysBehind }
    ensures front { FrontStays }
{}

/// The bytes in some blocks are a content of theirs where none is missing, and the only one of that
/// length. Each byte of a content stands at its place, and bytes that do so are a content.
pub fn contents_are_bytes()
    ensures one { OneContent }
    ensures whole { BytesAreContent }
    ensures places { ContentStands }
    ensures placed { StandsIsContent }
{}
