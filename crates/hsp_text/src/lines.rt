// Lines, each ended by one LF.

ghost use Rattle.std.specs.Prelude.{◌≡◌, option_map};
ghost use Rattle.hsp_text.specs.Lines.{SplitsAtLine};

/// The octets before the first LF and those after it, or None where there is no LF.
pub fn next_line(text: &[u8]) -> Option<(&[u8], &[u8])>
    ensures { SplitsAtLine text.now (option_map (λ p. (p.0.now, p.1.now)) result) }
{
    for (place, octet) in text.iter().enumerate() {
        if *octet == b'\n' {
            return Some((&text[..place], &text[place + 1..]));
        }
    }
    None
}
