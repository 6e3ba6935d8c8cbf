// What holds of the answers of all fronts together.

ghost use Rattle.hsp_price_answers.specs.Laws.{IsServedInLog, MachinesKeepWithin};

/// Machines that answer logs, each by its front of a plan that fits, send no server and no host more than it takes,
/// whatever the rows of each ask.
pub fn machines_keep_within()
    ensures { MachinesKeepWithin }
{}

/// A single front assigns each query of a log that asks for no more than the plan has, and sends each server at most
/// what the plan does: just that where each class is asked for exactly its amounts.
pub fn served_in_log()
    ensures { IsServedInLog }
{}
