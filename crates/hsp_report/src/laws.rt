// What holds of all reports.

ghost use Rattle.hsp_report.specs.RegionTotals.{CostsAddUp, DemandsAddUp};

/// The regions of a report together ask for what its total says, and together cost what its total says.
pub fn regions_add_up()
    ensures demands { DemandsAddUp }
    ensures costs { CostsAddUp }
{}
