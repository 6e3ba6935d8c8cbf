// What the rows that were passed over bring together.

ghost use Rattle.std.specs.Prelude.{◌≡◌, ◌≤◌, ◌<◌, ◌+◌, ◌*◌, ◌&&◌, ◌==◌, length};
ghost use Rattle.hsp_text.specs.declared.limits.TheConstants.{GREATEST_COST};
ghost use Rattle.hsp_price_check.specs.Passed.{IsAddedTo, IsInside, IsSetAt};
ghost use Rattle.hsp_price_check.specs.declared.sums.RowPlace.TheVariants.{OfClass, Over};

use hsp_instance::Arc;

/// Where the queries of a row go by a plan.
#[derive(Clone, Copy)]
pub(crate) enum RowPlace {
    /// The row has no arc.
    Nowhere,
    /// Over this arc, the only one of least pay.
    Over(Arc),
    /// To the servers of the class with this number.
    OfClass(u32),
    /// There are several arcs of least pay, and no class has their servers.
    Unlisted,
}

/// What the rows that were passed over bring together. Sums above 2^128 - 1 are kept as that.
#[derive(Drop)]
pub(crate) struct PassSums {
    /// What each server takes, by all classes and by the rows with one least server.
    pub(crate) loads: Vec<u128>,
    /// What all of it costs.
    pub(crate) cost: u128,
    /// What the rows of each class ask for.
    pub(crate) asked: Vec<u128>,
    /// Which classes have a row.
    pub(crate) seen: Vec<bool>,
    /// Whether each row has a place.
    pub(crate) placed: bool,
}

// Adds a count to the sum at a place.
fn add_at(sums: &mut [u128], place: usize, count: u64)
    requires { place < length sums.old }
    ensures { IsAddedTo sums.old place count sums.new }
{
    sums[place] = sums[place].saturating_add(u128::from(count));
}

// Sets the flag at a place.
fn set_at(flags: &mut [bool], place: usize)
    requires { place < length flags.old }
    ensures { IsSetAt flags.old place flags.new }
{
    flags[place] = true;
}

// What a count of queries costs.
fn cost_of(cost: u64, count: u64) -> u128
    requires { cost ≤ GREATEST_COST }
    ensures { result ≡ cost * count }
{
    u128::from(cost) * u128::from(count)
}

impl PassSums {
    ghost use Rattle.hsp_price_check.specs.Passed.{IsAdded, spent};

    // Adds a row that goes over an arc, and returns what it costs.
    fn add_over(&mut self, arc: Arc, count: u64) -> u128
        requires server { arc.server < length self.old.loads.items }
        requires cost { arc.cost ≤ GREATEST_COST }
        ensures added { IsAdded self.old (Over arc) count self.new }
        ensures cost { result ≡ arc.cost * count }
    {
        add_at(&mut self.loads, arc.server as usize, count);
        let cost = cost_of(arc.cost, count);
        self.cost = self.cost.saturating_add(cost);
        cost
    }

    // Adds a row of a class.
    fn add_to_class(&mut self, class: u32, count: u64)
        requires asked { class < length self.old.asked.items }
        requires seen { class < length self.old.seen.items }
        ensures { IsAdded self.old (OfClass class) count self.new }
    {
        add_at(&mut self.asked, class as usize, count);
        set_at(&mut self.seen, class as usize);
    }

    /// Adds a row with its count at its place, and returns what it costs: a row of a class costs nothing of its own.
    pub(crate) fn add(&mut self, place: RowPlace, count: u64) -> u128
        requires { IsInside self.old place }
        ensures added { IsAdded self.old place count self.new }
        ensures cost { result ≡ spent place count }
    {
        match place {
            RowPlace::Nowhere => {
                self.placed = self.placed && count == 0;
                0
            }
            RowPlace::Over(arc) => self.add_over(arc, count),
            RowPlace::OfClass(class) => {
                self.add_to_class(class, count);
                0
            }
            RowPlace::Unlisted => {
                self.placed = false;
                0
            }
        }
    }
}
