// What holds of all encodings of tables, and of changes beside them.
ghost use Rattle.std.specs.Prelude.{◌≡◌};
ghost use Rattle.table_codec.specs.Laws.{AreEncodable, AreSpelledOnce, AreWithinTableWeights, AreWithinWeights, ChangesAreWithinWeights, FieldsStay, HadFields, StayEncodable};

/// By how many bytes the encoding of a change may be longer than the weight that it adds.
pub const CHANGE_LIMIT: u64 = 4_096;

/// The number of that limit.
pub fn change_limit_is()
    ensures { CHANGE_LIMIT ≡ 4_096 }
{}

/// A law: different tables have different encodings.
pub fn tables_are_spelled_once()
    ensures { AreSpelledOnce }
{}

/// A law: a change that fits leaves the fields of tables with encodings, and tables that have an
/// encoding have such fields.
pub fn fields_stay_encodable()
    ensures stay { FieldsStay }
    ensures had { HadFields }
{}

/// A law: tables whose fields have encodings have one, as long as they weigh less than 2^32, and so
/// have those to which a change leads that fits.
pub fn changes_stay_encodable()
    ensures stay { StayEncodable }
    ensures are { AreEncodable }
{}

/// A law: an encoding is at most as long as its tables weigh, where a file counts the bytes that
/// are spelled of the numbers of its blocks in place of its blocks.
pub fn encodings_are_within_weights()
    ensures { AreWithinWeights }
{}

/// A law: the spelling of tables whose fields have encodings is at most as long as they weigh, where
/// each file has as many blocks as its length needs.
pub fn encodings_are_within_table_weights()
    ensures { AreWithinTableWeights }
{}

/// A law: the encoding of a change is longer by at most `CHANGE_LIMIT` bytes than the weight that it
/// adds, where each file that it brings has as many blocks as its length needs.
pub fn changes_are_within_weights()
    ensures { ChangesAreWithinWeights }
{}
