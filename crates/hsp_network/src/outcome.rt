// What becomes of a network: what is proposed, where the test accepts it, and otherwise what the searches find.

ghost use Rattle.std.specs.Prelude.{IfOk, IfSome};
ghost use Rattle.hsp_network.specs.Answer.{Answers};
ghost use Rattle.hsp_network.specs.Layout.{IsSmall};
ghost use Rattle.hsp_network.specs.Problem.{problem_of};

use crate::accept::accepts;
use crate::arcs::SearchEffort;
use crate::heap::HeapFrontier;
use crate::network::{Network, Outcome};
use crate::proposal::propose_counted;
use crate::solving::minimum_cost_flow;
use crate::tree::SimplexEffort;
use std::alloc::{AllocError, Global};

/// How much work a run took: its searches, the accepted proposals of the network simplex method, and the pivots of all
/// proposals that were made.
#[derive(Clone, Copy, Default)]
pub struct Effort {
    pub searching: SearchEffort,
    pub proposals: u64,
    pub pivots: u64,
}

// What is proposed, where the test accepts it.
fn accepted(
    alloc: Global,
    network: &Network<'_>,
    proposal: Option<Outcome>,
) -> Result<Option<Outcome>, AllocError>
    ensures { IfOk result (λ found. IfSome found (Answers (problem_of network.now))) }
{
    let Some(outcome) = proposal else {
        return Ok(None);
    };
    if accepts(alloc, network, &outcome)? {
        Ok(Some(outcome))
    } else {
        Ok(None)
    }
}

// What the network simplex method proposes for the network, where the test accepts it.
fn accepted_proposal(
    alloc: Global,
    network: &Network<'_>,
    effort: &mut Effort,
) -> Result<Option<Outcome>, AllocError>
    ensures { IfOk result (λ found. IfSome found (Answers (problem_of network.now))) }
{
    let mut simplex = SimplexEffort::default();
    let proposal = propose_counted(alloc, network, &mut simplex)?;
    effort.pivots = effort.pivots.saturating_add(simplex.pivots);
    let found = accepted(alloc, network, proposal)?;
    if found.is_some() {
        effort.proposals = effort.proposals.saturating_add(1);
    }
    Ok(found)
}

/// What becomes of a network: what is proposed, where the test accepts it, and otherwise what the searches find. The
/// work that it took is added to `effort`. No clause speaks of those counts.
///
/// # Errors
///
/// An `AllocError` where memory runs out.
pub fn solve(
    alloc: Global,
    network: &Network<'_>,
    effort: &mut Effort,
) -> Result<Outcome, AllocError>
    requires { IsSmall (problem_of network.now) }
    ensures { IfOk result (Answers (problem_of network.now)) }
{
    match accepted_proposal(alloc, network, effort)? {
        Some(outcome) => Ok(outcome),
        None => minimum_cost_flow::<HeapFrontier>(alloc, network, &mut effort.searching),
    }
}
