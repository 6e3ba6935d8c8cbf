// What holds of the report of regions.

ghost use Rattle.hsp_price_report.specs.RegionTotals.{CostsAddUp, DemandsAddUp};

/// The regions of a report together ask for what its total says, and together cost what its total says.
pub fn price_regions_add_up()
    ensures demands { DemandsAddUp }
    ensures costs { CostsAddUp }
{}
