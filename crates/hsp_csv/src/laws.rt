// Laws of the definitions of records with their places.

ghost use Rattle.std.specs.Prelude.{◌≡◌, ℕ, List};
ghost use Rattle.std.specs.List.{AllByRecursion};
ghost use Rattle.hsp_csv.specs.Places.{IsWhole, fields_in, placed_of};
ghost use Rattle.hsp_csv.specs.Records.{records_of};

/// Records with their places are the records of the text, and each of their fields has a place.
#[tactic(auto, using(crate::proofs::PlacedFields::placed_are_records, crate::proofs::PlacedFields::placed_are_whole))]
pub fn places_are_of_records()
    ensures records { (text : List ℕ) → fields_in (placed_of text) ≡ records_of text }
    ensures whole { (text : List ℕ) → AllByRecursion IsWhole (placed_of text) }
{}
