// The flows of the arcs by the uses of a certificate.

ghost use Rattle.std.specs.Prelude.{◌≡◌, ℕ, ◌<◌, ◌≤◌, ◌^◌, length, All, IfSome, IfNone, true, false};
ghost use Rattle.hsp_text.specs.declared.limits.TheConstants.{GREATEST_COUNT};
ghost use Rattle.hsp_check.specs.Index.{AreBare, AreByRow, AreUsedBy, ByRow, HasNoPlace, HaveArcs, IsPlaceOf};
ghost use Rattle.hsp_check.specs.Index.{LacksAnArc, arc_at, has_arc};
ghost use Rattle.hsp_check.specs.ArcFlows.{AreArcFlows, arcs_in};
ghost use Rattle.hsp_check.specs.Uses.{table};

use crate::indexing::IndexedArcs;
use crate::sums::ArcFlow;
use hsp_cert::UseLine;
use hsp_instance::Runs;

// The place of the row's arc to the site.
fn place_of(arc_flows: &[ArcFlow], runs: &Runs, row: u32, site: u32) -> Option<usize>
    requires { (rows : ℕ) × ByRow rows arc_flows.now runs.now }
    ensures found { IfSome result (IsPlaceOf arc_flows.now row site) }
    ensures none { IfNone result (HasNoPlace arc_flows.now row site) }
{
    let row = row as usize;
    if row >= runs.len() {
        return None;
    }
    let (begin, end) = runs.run(row);
    for place in begin..end {
        if arc_flows[place].arc.site == site {
            return Some(place);
        }
    }
    None
}

// Adds each use to its arc, up to the first use without one. The flows are 0 at first.
fn add_uses(arc_flows: &mut [ArcFlow], runs: &Runs, uses: &[UseLine]) -> bool
    requires index { (rows : ℕ) × ByRow rows arc_flows.old runs.now }
    requires bare { AreBare arc_flows.old }
    requires counts { All (λ u. u.count ≤ GREATEST_COUNT) uses.now }
    requires few { length uses.now < 2 ^ 32 }
    ensures arcs { (k : ℕ) → k < length arc_flows.old →
        arc_at arc_flows.new k ≡ arc_at arc_flows.old k }
    ensures flows { result ≡ true → AreUsedBy uses.now arc_flows.old arc_flows.new }
    ensures each { result ≡ true → HaveArcs arc_flows.old uses.now }
    ensures lost { result ≡ false → LacksAnArc arc_flows.old uses.now }
{
    for index in 0..uses.len() {
        let one = uses[index];
        let Some(place) = place_of(arc_flows, runs, one.row, one.site) else {
            return false;
        };
        arc_flows[place].flow += one.count;
    }
    true
}

/// The arcs with what the uses give them, or None where a use has no arc.
pub(crate) fn flows_by_uses(arcs: IndexedArcs, uses: &[UseLine]) -> Option<Vec<ArcFlow>>
    requires index { AreByRow arcs }
    requires bare { AreBare arcs.arc_flows.items }
    requires counts { All (λ u. u.count ≤ GREATEST_COUNT) uses.now }
    requires few { length uses.now < 2 ^ 32 }
    ensures arc_flows { IfSome result (λ arc_flows.
        AreArcFlows (arcs_in arcs.arc_flows.items) (table uses.now) arc_flows.items) }
    ensures each { IfSome result (λ _. All (λ u. has_arc arcs.arc_flows.items u ≡ true) uses.now) }
    ensures lost { IfNone result (All (λ u. has_arc arcs.arc_flows.items u ≡ true) uses.now → ⊥) }
{
    let IndexedArcs {
        mut arc_flows,
        runs,
    } = arcs;
    if add_uses(&mut arc_flows, &runs, uses) {
        Some(arc_flows)
    } else {
        None
    }
}
