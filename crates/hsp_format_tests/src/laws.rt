// Test vectors of MD5 and of places, as theorems on the definitions that hsp_hash stands on.

ghost use Rattle.hsp_format_tests.specs.Vectors.{PartVectors, StandardVectors};

/// The digests that RFC 1321 prints in section A.5, of the texts that have one block with their padding.
pub fn standard_vectors()
    ensures { StandardVectors }
{}

/// Digests of parts of handles, and the values of which places are the remainders.
pub fn part_vectors()
    ensures { PartVectors }
{}
