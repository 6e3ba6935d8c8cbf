// The regions of an instance.

ghost use Rattle.std.specs.Prelude.{◌≡◌, IfOk, OnOk};
ghost use Rattle.std.specs.List.{list_any};
ghost use Rattle.std.specs.Str.{bytes_eq};
ghost use Rattle.indexmap.specs.IndexSet.{insert_key};
ghost use Rattle.hsp_instance.specs.Instance.{regions_of};
ghost use Rattle.hsp_report.specs.Lent.{names_in};

use hsp_instance::Instance;
use std::alloc::{AllocError, Global};

// Whether a name is among those that were seen.
fn has_name(names: &[&[u8]], name: &[u8]) -> bool
    ensures { result ≡ list_any (bytes_eq name.now) (names_in names.now) }
{
    for seen in names {
        if name == *seen {
            return true;
        }
    }
    false
}

// Adds a name to those that were seen.
fn see<'a>(names: &mut Vec<&'a [u8]>, name: &'a [u8]) -> Result<(), AllocError>
    ensures { OnOk result (names_in names.new.items
        ≡ insert_key bytes_eq (names_in names.old.items) name.now) }
{
    if !has_name(names.as_slice(), name) {
        names.push(name)?;
    }
    Ok(())
}

/// The regions of the rows, each once, in the order in which they are first seen.
pub(crate) fn regions_of(alloc: Global, instance: &Instance) -> Result<Vec<&[u8]>, AllocError>
    ensures { IfOk result (λ names. names_in names.items ≡ regions_of instance.now.rows) }
{
    let mut names = Vec::new(alloc);
    for row in 0..instance.rows() {
        let (region, _, _) = instance.row(row);
        see(&mut names, region)?;
    }
    Ok(names)
}
