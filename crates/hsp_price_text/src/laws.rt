// What holds of all texts of certificates by prices.

ghost use Rattle.hsp_price_text.specs.Reading.{HasOneAnswer, HasOneSpelling};

/// No two certificates have the same text.
pub fn one_spelling()
    ensures { HasOneSpelling }
{}

/// A text spells at most one certificate, and one that spells none has one fault: no two answers are true of it.
pub fn one_answer()
    ensures { HasOneAnswer }
{}
