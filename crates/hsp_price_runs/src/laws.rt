// What holds of all inputs, costs and rows.

ghost use Rattle.hsp_price_runs.specs.OneTheory.{RowsHaveTheirArcs, TableHasItsNetwork};

use hsp_names::laws::readings_are_handles;

/// Certificates of tables and those by prices speak of one network. By prices the rows of a table have the network of
/// its instance, and each row of a log has the arcs that the page of the headline says.
pub fn one_theory()
    ensures network { TableHasItsNetwork }
    ensures arcs { RowsHaveTheirArcs }
{
    readings_are_handles();
}
