// Lines without a quote: they are split at their commas, in place.

ghost use Rattle.std.specs.Prelude.{◌≡◌, false, position};
ghost use Rattle.std.specs.List.{list_any};
ghost use Rattle.hsp_csv.specs.Row.{row_of, row_shown};
ghost use Rattle.hsp_csv.specs.Plain.{IsSplit, is_comma, is_mark};

use crate::row_fields::RowFields;

// Whether an octet of a line may have a meaning of its own to the `csv` crate, beside a comma.
fn is_mark(octet: u8) -> bool
    ensures { result ≡ is_mark octet }
{
    octet == b'"' || octet == b'\r' || octet == b'\n'
}

// Whether a line has such an octet.
pub(crate) fn has_marks(line: &[u8]) -> bool
    ensures { result ≡ list_any is_mark line.now }
{
    line.iter().any(|octet| is_mark(*octet))
}

// The place of the first comma.
fn comma_in(line: &[u8]) -> Option<usize>
    ensures { result ≡ position is_comma line.now }
{
    line.iter().position(|octet| *octet == b',')
}

// The octets before the first comma, and those after it.
fn split_at_comma(line: &[u8]) -> Option<(&[u8], &[u8])>
    ensures { IsSplit line.now result }
{
    match comma_in(line) {
        Some(place) => Some((&line[..place], &line[place + 1..])),
        None => None,
    }
}

// The fields of a line without such an octet.
pub(crate) fn split(line: &[u8]) -> RowFields<'_>
    requires { list_any is_mark line.now ≡ false }
    ensures { row_shown result ≡ row_of line.now }
{
    if line.is_empty() {
        return RowFields::Blank;
    }
    let Some((first, rest)) = split_at_comma(line) else {
        return RowFields::One(line);
    };
    match split_at_comma(rest) {
        None => RowFields::Two(first, rest),
        Some(_) => RowFields::Other,
    }
}
