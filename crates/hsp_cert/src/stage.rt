/// What the next line may be.
#[derive(Clone, Copy)]
pub(crate) enum Stage {
    Version,
    Kind,
    Cost,
    Body,
    Demand,
    Capacity,
    Rows,
    PlanEnded,
    ShortageEnded,
}
