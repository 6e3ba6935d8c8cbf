// The files of inputs.

ghost use Rattle.std.specs.Prelude.{IfErr, IfOk, option_map};
ghost use Rattle.hsp_cli.specs.Commands.{AreHeld, FailsNamed, HoldsNamed, OneFails};
ghost use Rattle.hsp_cli.specs.Failing.{IsUnread};

use crate::failure::Unread;
use crate::files::{FileSource, read_path};
use hsp_cli_orders::{InputFiles, Word};
use hsp_inputs::Inputs;
use std::alloc::Global;

/// Every octet of a file that may be named.
///
/// # Errors
///
/// Those of [`read_path`].
pub fn read_named<S: FileSource>(
    alloc: Global,
    files: &S,
    path: &Option<Word<'_>>,
) -> Result<Option<Vec<u8>>, Unread>
    ensures octets { IfOk result
        (λ octets. HoldsNamed (S.disk files.now) path.now (option_map (λ v. v.items) octets)) }
    ensures unread { IfErr result (IsUnread (FailsNamed (S.disk files.now) path.now)) }
{
    match path {
        Some(path) => Ok(Some(read_path(alloc, files, path)?)),
        None => Ok(None),
    }
}

/// The files of inputs, read in their order.
pub(crate) fn read_inputs<S: FileSource>(
    alloc: Global,
    files: &S,
    named: &InputFiles<'_>,
) -> Result<Inputs, Unread>
    ensures held { IfOk result (λ inputs. AreHeld (S.disk files.now) named.now inputs) }
    ensures unread { IfErr result (IsUnread (OneFails (S.disk files.now) named.now)) }
{
    Ok(Inputs {
        settings: read_path(alloc, files, &named.settings)?,
        values: read_named(alloc, files, &named.values)?,
        demand: Some(read_path(alloc, files, &named.demand)?),
        costs: read_path(alloc, files, &named.costs)?,
        capacity: read_path(alloc, files, &named.capacity)?,
    })
}
