// Arcs in forward star order, which is source by source (Network Flows, 2.3).

use crate::lists::{between, get_or, number_of};

/// An arc from a source to the server at the node `head`.
#[derive(Clone, Copy, Drop)]
pub struct StarArc {
    pub cost: u32,
    pub head: u32,
}

/// Arcs of the sources: all of them, or a selection.
#[derive(Drop)]
pub struct ForwardStar {
    pub arcs: Vec<StarArc>,
    /// The place of each source's first arc, and how many arcs there are.
    pub firsts: Vec<u32>,
    /// The number that each arc of a selection has among all arcs. Of all arcs the number is the place, and nothing is
    /// listed.
    pub numbers: Vec<u32>,
}

impl ForwardStar {
    /// The place of the first arc of a source.
    #[inline(always)]
    pub(crate) fn first_place(&self, source: usize) -> usize {
        get_or(&self.firsts, source, 0) as usize
    }

    /// The arcs of a source.
    #[inline(always)]
    pub(crate) fn arcs_of(&self, source: usize) -> &[StarArc] {
        let start = self.first_place(source);
        let end = self.first_place(source.wrapping_add(1));
        between(&self.arcs, start, end)
    }

    /// The arc at a place.
    #[inline(always)]
    pub(crate) fn arc_at(&self, place: usize) -> StarArc {
        get_or(&self.arcs, place, StarArc { cost: 0, head: 0 })
    }

    /// The number of the arc at a place.
    #[inline(always)]
    pub(crate) fn number_at(&self, place: usize) -> u32 {
        get_or(&self.numbers, place, number_of(place))
    }
}
