// The fields of a record that has as many of them as a caller wants.

ghost use Rattle.std.specs.Prelude.{◌≡◌, ◌≢◌, ◌∷◌, [], length, IfNone, IfSome};
ghost use Rattle.csv.specs.Records.{fields_of};

use csv::ByteRecord;

/// The fields of a record, where there are two.
#[tactic(auto, using(crate::proofs::RecordFields::two_fields_are, crate::proofs::RecordFields::field_is_missing))]
pub fn two_fields(record: &ByteRecord) -> Option<(&[u8], &[u8])>
    ensures found { IfSome result (λ t. fields_of «record».now ≡ t.0.now ∷ t.1.now ∷ []) }
    ensures none { IfNone result (length (fields_of «record».now) ≢ 2) }
{
    let first = record.get(0)?;
    let second = record.get(1)?;
    if record.len() != 2 {
        return None;
    }
    Some((first, second))
}

/// The fields of a record, where there are three.
#[tactic(auto, using(crate::proofs::RecordFields::three_fields_are, crate::proofs::RecordFields::field_is_missing))]
pub fn three_fields(record: &ByteRecord) -> Option<(&[u8], &[u8], &[u8])>
    ensures found { IfSome result
        (λ t. fields_of «record».now ≡ t.0.now ∷ t.1.now ∷ t.2.now ∷ []) }
    ensures none { IfNone result (length (fields_of «record».now) ≢ 3) }
{
    let first = record.get(0)?;
    let second = record.get(1)?;
    let third = record.get(2)?;
    if record.len() != 3 {
        return None;
    }
    Some((first, second, third))
}
