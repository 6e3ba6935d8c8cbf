// Laws of the definitions.

ghost use Rattle.hsp_text.specs.Whole.{DigitsSpellTheirNumber};

/// A number below 2^64 is spelled by its digits and by nothing else.
pub fn digits_spell_their_number()
    ensures { DigitsSpellTheirNumber }
{}
