// The segments of a naming authority, one by one.

ghost use Rattle.std.specs.Prelude.{◌≡◌, position};
ghost use Rattle.std.specs.List.{slice_split};
ghost use Rattle.std.specs.Iterator.{YieldsFirstRef, item_count};
ghost use Rattle.hsp_names.specs.Handle.{is_dot};

// The place of the first dot.
fn dot_in(text: &[u8]) -> Option<usize>
    ensures { result ≡ position is_dot text.now }
{
    text.iter().position(|octet| *octet == b'.')
}

/// The segments of a naming authority that are still to come: what stands before, between and after its dots.
#[derive(Clone, Copy)]
pub struct Segments<'a> {
    rest: Option<&'a [u8]>,
}

impl<'a> Segments<'a> {
    ghost use Rattle.hsp_names.specs.Lent.{segments_left};

    // All segments of a naming authority.
    pub(crate) fn of(authority: &'a [u8]) -> Segments<'a>
        ensures { segments_left result ≡ slice_split is_dot authority.now }
    {
        Segments {
            rest: Some(authority),
        }
    }
}

impl<'a> Iterator for Segments<'a> {
    ghost use Rattle.hsp_names.specs.Lent.{segments_left};

    type Item = &'a [u8];

    ghost next_gives = { YieldsFirstRef segments_left };

    ghost remaining = { item_count segments_left };

    fn next(&mut self) -> Option<&'a [u8]> {
        let text = self.rest?;
        match dot_in(text) {
            Some(dot) => {
                self.rest = Some(&text[dot + 1..]);
                Some(&text[..dot])
            }
            None => {
                self.rest = None;
                Some(text)
            }
        }
    }
}
