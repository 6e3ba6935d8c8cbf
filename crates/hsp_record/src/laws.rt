// What holds of all spellings.

ghost use Rattle.hsp_record.specs.Fields.{HasNothingAfter, HasOneAnswer, HasOneSpelling};
ghost use Rattle.hsp_record.specs.Site.{site_format};
ghost use Rattle.hsp_record.specs.Values.{values_format};
ghost use Rattle.hsp_record.specs.Request.{request_format};

/// No two records have the same spelling.
pub fn one_spelling()
    ensures sites { HasOneSpelling site_format }
    ensures value_lists { HasOneSpelling values_format }
    ensures requests { HasOneSpelling request_format }
{}

/// Octets after a spelling do not change what is read, so no spelling is a proper prefix of another.
pub fn nothing_after()
    ensures sites { HasNothingAfter site_format }
    ensures value_lists { HasNothingAfter values_format }
    ensures requests { HasNothingAfter request_format }
{}

/// No two answers are true of the same octets: they spell at most one value, and where they spell none they have one
/// fault.
pub fn one_answer()
    ensures sites { HasOneAnswer site_format }
    ensures value_lists { HasOneAnswer values_format }
    ensures requests { HasOneAnswer request_format }
{}
