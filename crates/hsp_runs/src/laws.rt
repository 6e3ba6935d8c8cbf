// What holds of all runs over logs.

ghost use Rattle.hsp_runs.specs.Laws.{DispatchedLogsShow, FrontsLogsShow, LogsGoByHash};
ghost use Rattle.hsp_runs.specs.Pricing.{PrintedPricesAnswer};

use hsp_names::laws::readings_are_handles;

/// Where inputs and a certificate of a plan are accepted, each entry of a log is answered by the server that is
/// responsible for its handle, by the hash option and the servers of the site's record. So is each event at a front.
pub fn logs_go_by_hash()
    ensures { LogsGoByHash }
{}

/// A log is answered, to its end or up to a fault, by a best plan of the instance that the inputs define: none beyond
/// what the plan sends, and each entry by the hash of its handle. Fronts answer each by its share of such a plan. Any
/// other run writes nothing.
pub fn dispatched_logs_show()
    ensures logs { DispatchedLogsShow }
    ensures fronts { FrontsLogsShow }
{
    readings_are_handles();
}

/// The prices of a printed plan speak of all inputs that differ from its own in counts, capacities and limits only. No
/// plan for these costs less than what their rows pay beside what their servers and hosts take. So room for one query
/// more at a server saves at most the server's price, room for one less costs at least that, and one query more in a
/// row costs at least the row's price.
pub fn printed_prices_answer()
    ensures { PrintedPricesAnswer }
{
    readings_are_handles();
}
