// How entries and events are answered.

ghost use Rattle.std.specs.Prelude.{◌≡◌, ◌≢◌, ◌<◌, IfErr, IfOk, IfSome, Ok, OnErr, length};
ghost use Rattle.hsp_names.specs.Handle.{handle_in};
ghost use Rattle.hsp_instance.specs.Instance.{IsInstance};
ghost use Rattle.hsp_dispatch.specs.Dispatch.{row_of};
ghost use Rattle.hsp_dispatch.specs.Lines.{IsAmong, given_of, line_by};
ghost use Rattle.hsp_dispatch.specs.Shares.{taken_answer};
ghost use Rattle.hsp_dispatch.specs.Steps.{entry_of};
ghost use Rattle.hsp_log.specs.declared.fault.LogFault.TheVariants.{BadHandle};

use crate::answer::{Answer, Given};
use hsp_instance::Instance;
use hsp_log::{LogFault, ServerLines};
use hsp_names::HandleRef;

/// An entry whose parts are lent.
#[derive(Clone, Copy)]
pub(crate) struct LentEntry<'a> {
    pub(crate) region: &'a [u8],
    pub(crate) handle: &'a [u8],
}

/// The demand row for this entry, if any. A row's handle is known to be valid, so the handle is parsed only when no row
/// matches.
pub(crate) fn row_in(
    instance: &Instance,
    lent: LentEntry<'_>,
    number: u32,
) -> Result<Option<u32>, LogFault>
    requires { IsInstance instance.now }
    ensures row { IfOk result (λ row. row ≡ row_of instance.now (entry_of lent.entry)) }
    ensures there { IfOk result (λ row. IfSome row (λ row. row < length instance.now.rows)) }
    ensures handle { IfOk result
        (λ row. handle_in lent.entry.handle.now ≡ Ok lent.entry.handle.now) }
    ensures fault { IfErr result (λ e. e ≡ BadHandle number) }
    ensures bad { OnErr result (handle_in lent.entry.handle.now ≢ Ok lent.entry.handle.now) }
{
    match instance.find_row(lent.region, lent.handle) {
        Some(row) => Ok(Some(row)),
        None => match HandleRef::parse(lent.handle) {
            Ok(_) => Ok(None),
            Err(_) => Err(LogFault::BadHandle { row: number }),
        },
    }
}

/// How an entry is answered that goes to the server with this number, or to no server.
pub(crate) fn given_by(taken: Option<u32>) -> Given
    ensures { result ≡ given_of taken }
{
    match taken {
        Some(server) => Given::Server(server),
        None => Given::Spent,
    }
}

/// The answer to a query that goes to the server with this number, or to no server.
pub(crate) fn served(instance: &Instance, taken: Option<u32>) -> Answer
    requires { IfSome taken (λ server. server < length instance.now.servers) }
    ensures { result ≡ taken_answer instance.now taken }
{
    let Some(server) = taken else {
        return Answer::Spent;
    };
    let (site, place, server_id, _) = instance.server(server);
    Answer::Assigned {
        site,
        place,
        server_id,
    }
}

/// The line of an answer.
pub(crate) fn line_in(lines: &ServerLines, given: Given) -> &[u8]
    requires { IsAmong (length lines.now) given }
    ensures { result.now ≡ line_by lines.now given }
{
    match given {
        Given::Server(server) => lines.line(server),
        Given::Spent => b"spent\n",
        Given::Unknown => b"unknown\n",
        Given::NoFront => b"nofront\n",
    }
}
