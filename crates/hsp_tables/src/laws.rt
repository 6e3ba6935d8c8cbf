// Laws of the definitions of the three tables and of the settings.

ghost use Rattle.hsp_text.specs.declared.limits.TheConstants.{MOST_HOSTS, MOST_SITES};
ghost use Rattle.hsp_tables.specs.Capacities.{capacity_table};
ghost use Rattle.hsp_tables.specs.Costs.{cost_table};
ghost use Rattle.hsp_tables.specs.declared.limits.Limits.{Limits};
ghost use Rattle.hsp_tables.specs.Demand.{demand_table};
ghost use Rattle.hsp_tables.specs.Faulty.{BeginsWithTheFault, HasItsField};
ghost use Rattle.hsp_tables.specs.InTurn.{FaultStays, ReadsAsSpelled};
ghost use Rattle.hsp_tables.specs.Settings.{host_after, host_at, same_address, same_name, site_after, site_at};
ghost use Rattle.hsp_tables.specs.Table.{KeepsFirstFault, ReadsAsItsRelation};

/// A table reads as its relation says: exactly the rows that its records spell under the header, where they are within
/// the limits and no two have the same key; otherwise exactly its first fault.
pub fn reading_is_the_relation()
    ensures demand { ReadsAsItsRelation demand_table }
    ensures costs { (limits : Limits) → ReadsAsItsRelation (cost_table limits) }
    ensures capacity { ReadsAsItsRelation capacity_table }
{}

/// The records up to a fault decide it: it stays, whatever records follow.
#[tactic(auto, using(crate::proofs::TableReading::keeps_first_fault))]
pub fn fault_is_first()
    ensures demand { KeepsFirstFault demand_table }
    ensures costs { (limits : Limits) → KeepsFirstFault (cost_table limits) }
    ensures capacity { KeepsFirstFault capacity_table }
{}

/// The sites and the hosts of the settings read as their relation says: exactly those that the elements spell, each by
/// its number, where they are within their limits, no two sites have the same name and no two hosts have the same
/// address.
pub fn settings_are_as_spelled()
    ensures sites { ReadsAsSpelled MOST_SITES site_at same_name site_after }
    ensures hosts { ReadsAsSpelled MOST_HOSTS host_at same_address host_after }
{}

/// The elements up to a fault of a site or a host decide it: it stays, whatever elements follow in the array.
#[tactic(auto, using(crate::proofs::TurnLaws::fault_stays))]
pub fn fault_of_settings_is_first()
    ensures sites { FaultStays site_after }
    ensures hosts { FaultStays host_after }
{}

/// The list of the faulty rows of a table begins with the fault by which the table is refused, and is empty where the
/// table is read.
pub fn faults_begin_with_the_first()
    ensures demand { BeginsWithTheFault demand_table }
    ensures costs { (limits : Limits) → BeginsWithTheFault (cost_table limits) }
    ensures capacity { BeginsWithTheFault capacity_table }
{}

/// A fault of one field has a field: the first one that is not as it should be.
pub fn faults_have_their_field()
    ensures demand { HasItsField demand_table }
    ensures costs { (limits : Limits) → HasItsField (cost_table limits) }
    ensures capacity { HasItsField capacity_table }
{}
