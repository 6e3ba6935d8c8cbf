// What holds of the places that are printed.

ghost use Rattle.hsp_stream.specs.PlacesLaws.{PlacesArePrinted};

use hsp_names::laws::readings_are_handles;

/// Where [`crate::places_run`] answers a log to its end, it sends the header line and, for each handle of the log in
/// the order of the rows, a line for each site in their order. It sends nothing else.
pub fn places_are_printed()
    ensures { PlacesArePrinted }
{
    readings_are_handles();
}
