// What a front answers to a query, and by what.

ghost use Rattle.std.specs.Prelude.{◌≡◌};
ghost use Rattle.hsp_price_dispatch.specs.Choosing.{answer_of};

use hsp_instance::Arc;

/// The answer to a query. An arc names the site and the server by their numbers.
#[derive(Clone, Copy, Debug, PartialEq, Eq)]
pub enum PriceAnswer {
    /// The query goes over one of the arcs over which it pays least.
    Assigned(Arc),
    /// No least server has an amount left for the query, or free room. The query goes over this arc, which may be a
    /// least one where only held room is left.
    Diverted(Arc),
    /// The server of each of the query's arcs, or its host, has no room left.
    Full,
    /// The query's region has no cost at any site.
    Unknown,
}

/// By what a front answers a query.
#[derive(Clone, Copy)]
pub(crate) enum Choice {
    /// The amount of the cell with this number. The query goes over the arc.
    OfClass(usize, Arc),
    /// Room beside the amounts of classes, over an arc of least pay.
    Free(Arc),
    /// Room over this arc: free room, or room that is held for others.
    Diverted(Arc),
    /// There is no room.
    Full,
    /// There is no arc.
    Unknown,
}

impl Choice {
    /// What is answered.
    pub(crate) fn answer(self) -> PriceAnswer
        ensures { result ≡ answer_of self }
    {
        match self {
            Choice::OfClass(_, arc) => PriceAnswer::Assigned(arc),
            Choice::Free(arc) => PriceAnswer::Assigned(arc),
            Choice::Diverted(arc) => PriceAnswer::Diverted(arc),
            Choice::Full => PriceAnswer::Full,
            Choice::Unknown => PriceAnswer::Unknown,
        }
    }
}
