// The machine by which the octets of a text become fields.

ghost use Rattle.std.specs.Prelude.{◌≡◌};
ghost use Rattle.csv.specs.Machine.{ends_at_end, in_field, start_field, start_record, step};
ghost use Rattle.csv.specs.Reading.{default_config};
ghost use Rattle.hsp_csv.specs.Scan.{is_move, state_of};

/// Where the machine stands. There are no escapes and no comments.
#[derive(Clone, Copy)]
pub(crate) enum Stand {
    StartRecord,
    StartField,
    InField,
    InQuoted,
    AfterQuote,
    AfterReturn,
}

/// What an octet does.
#[derive(Clone, Copy)]
pub(crate) enum Move {
    Skip,
    Copy,
    EndField,
    EndRecord,
}

// An octet within a field without quotes, or behind the closing quote.
fn in_field(octet: u8) -> (Stand, Move)
    ensures { in_field default_config octet ≡ is_move result }
{
    match octet {
        b',' => (Stand::StartField, Move::EndField),
        b'\r' => (Stand::AfterReturn, Move::EndRecord),
        b'\n' => (Stand::StartRecord, Move::EndRecord),
        _ => (Stand::InField, Move::Copy),
    }
}

// An octet at the start of a field.
fn start_field(octet: u8) -> (Stand, Move)
    ensures { start_field default_config octet ≡ is_move result }
{
    if octet == b'"' {
        (Stand::InQuoted, Move::Skip)
    } else {
        in_field(octet)
    }
}

// An octet between two records.
fn start_record(octet: u8) -> (Stand, Move)
    ensures { start_record default_config octet ≡ is_move result }
{
    if octet == b'\r' || octet == b'\n' {
        (Stand::StartRecord, Move::Skip)
    } else {
        start_field(octet)
    }
}

// An octet between quotes.
fn in_quoted(octet: u8) -> (Stand, Move)
    ensures { step default_config (state_of Stand.InQuoted) octet ≡ is_move result }
{
    if octet == b'"' {
        (Stand::AfterQuote, Move::Skip)
    } else {
        (Stand::InQuoted, Move::Copy)
    }
}

// An octet behind a quote that closes a field, or is the first of two.
fn after_quote(octet: u8) -> (Stand, Move)
    ensures { step default_config (state_of Stand.AfterQuote) octet ≡ is_move result }
{
    if octet == b'"' {
        (Stand::InQuoted, Move::Copy)
    } else {
        in_field(octet)
    }
}

// An octet behind a CR that ended a record.
fn after_return(octet: u8) -> (Stand, Move)
    ensures { step default_config (state_of Stand.AfterReturn) octet ≡ is_move result }
{
    if octet == b'\n' {
        (Stand::StartRecord, Move::Skip)
    } else {
        start_record(octet)
    }
}

/// Where the machine stands behind an octet, and what the octet does.
pub(crate) fn step(stand: Stand, octet: u8) -> (Stand, Move)
    ensures { step default_config (state_of stand) octet ≡ is_move result }
{
    match stand {
        Stand::StartRecord => start_record(octet),
        Stand::StartField => start_field(octet),
        Stand::InField => in_field(octet),
        Stand::InQuoted => in_quoted(octet),
        Stand::AfterQuote => after_quote(octet),
        Stand::AfterReturn => after_return(octet),
    }
}

/// Whether the end of the text ends a record.
pub(crate) fn ends_at_end(stand: Stand) -> bool
    ensures { result ≡ ends_at_end (state_of stand) }
{
    !matches!(stand, Stand::StartRecord | Stand::AfterReturn)
}
