// The arcs of sources, one source after another, in columns.

ghost use Rattle.std.specs.Prelude.{◌≡◌, [], IfOk, OnOk, length, map};
ghost use Rattle.hsp_instance.specs.Instance.{IsInstance};
ghost use Rattle.hsp_check.specs.Instance.{arc_of, arcs_from};
ghost use Rattle.hsp_flow.specs.Columns.{AreColumns, Extends};

use hsp_instance::{Arc, Instance};
use std::alloc::{AllocError, Global};

/// The source, the server and the cost of each arc, a column for each.
#[derive(Drop)]
pub struct ArcColumns {
    pub sources: Vec<u32>,
    pub servers: Vec<u32>,
    pub costs: Vec<u64>,
}

impl ArcColumns {
    /// No arcs yet, with room for `room` of them.
    ///
    /// # Errors
    ///
    /// An `AllocError` where memory runs out.
    pub fn with_room(alloc: Global, room: usize) -> Result<ArcColumns, AllocError>
        ensures { IfOk result (AreColumns []) }
    {
        Ok(ArcColumns {
            sources: Vec::with_capacity(alloc, room)?,
            servers: Vec::with_capacity(alloc, room)?,
            costs: Vec::with_capacity(alloc, room)?,
        })
    }

    /// Appends the arcs of a source.
    ///
    /// # Errors
    ///
    /// An `AllocError` where memory runs out.
    pub fn push_arcs(&mut self, source: u32, arcs: &[Arc]) -> Result<(), AllocError>
        ensures { OnOk result (Extends self.old (map (arc_of source) arcs.now) self.new) }
    {
        for arc in arcs {
            self.sources.push(source)?;
            self.servers.push(arc.server)?;
            self.costs.push(arc.cost)?;
        }
        Ok(())
    }
}

/// The columns of the arcs of all rows in turn.
pub(crate) fn row_columns(alloc: Global, instance: &Instance) -> Result<ArcColumns, AllocError>
    ensures columns { IfOk result (AreColumns (arcs_from 0 instance.now.arcs)) }
    // The instance is within its limits.
    ensures within { IfOk result (λ _. IsInstance instance.now) }
{
    let mut columns = ArcColumns::with_room(alloc, instance.arc_count())?;
    for row in 0..instance.rows() {
        columns.push_arcs(row, instance.arcs(row))?;
    }
    Ok(columns)
}
