// The lines of answers, made before the first of them is written.

ghost use Rattle.std.specs.Prelude.{◌≡◌, ◌<◌, IfOk, Some, length, slice_get};
ghost use Rattle.hsp_log.specs.Lines.{IsLineOf, lines_of};

use hsp_instance::Instance;
use hsp_text::push_line;
use std::alloc::{AllocError, Global};
use std::marker::Model;

// A line with its LF.
#[derive(Drop)]
struct Line {
    text: Vec<u8>,
}

impl Model for Line {
    ghost use Rattle.std.specs.Prelude.{ℕ, List};

    ghost Value = { List ℕ };

    ghost view = { λ line. line.text.items };
}

/// For each server of an instance, the line of a query that is assigned to it: `assigned` with the site's name, the
/// server's place and its identifier, each after a space, and an LF.
#[derive(Drop)]
pub struct ServerLines {
    lines: Vec<Line>,
}

impl Model for ServerLines {
    ghost use Rattle.std.specs.Prelude.{ℕ, List};

    ghost Value = { List (List ℕ) };

    ghost view = { λ lines. lines.lines.items };
}

// The line of a server.
fn line_of(alloc: Global, instance: &Instance, server: u32) -> Result<Line, AllocError>
    requires { server < length instance.now.servers }
    ensures { IfOk result (IsLineOf instance.now server) }
{
    let (site, place, server_id, _) = instance.server(server);
    let mut text = Vec::new(alloc);
    text.extend_from_slice(b"assigned ")?;
    let name = instance.sites().name(site);
    push_line(&mut text, name, &[u64::from(place), u64::from(server_id)])?;
    Ok(Line { text })
}

impl ServerLines {
    /// The lines of all servers, by their numbers.
    ///
    /// # Errors
    ///
    /// An `AllocError` where memory runs out.
    pub fn for_instance(alloc: Global, instance: &Instance) -> Result<ServerLines, AllocError>
        ensures { IfOk result (λ lines. lines ≡ lines_of instance.now) }
    {
        let mut lines = Vec::new(alloc);
        for server in 0..instance.servers() {
            lines.push(line_of(alloc, instance, server)?)?;
        }
        Ok(ServerLines { lines })
    }

    /// The line of the server with this number, with its LF.
    pub fn line(&self, server: u32) -> &[u8]
        requires { server < length self.now }
        ensures { slice_get self.now server ≡ Some result.now }
    {
        let line = &self.lines[server as usize];
        line.text.as_slice()
    }
}
