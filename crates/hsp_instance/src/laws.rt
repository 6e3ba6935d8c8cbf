// What holds of all instances of inputs.

ghost use Rattle.hsp_instance.specs.Building.{HasOneAnswer};
ghost use Rattle.hsp_instance.specs.Parts.{BuiltHasItsParts};

use hsp_record::laws::one_answer;

/// The instance of five inputs, part by part:
/// - Its rows are those of the demand.
/// - A server stands at its number, after the servers of the sites before it. It has the capacity of the row with its
///   site and identifier, and stands on the host with its address.
/// - A row has an arc to a site exactly where its region has a cost there. The arc goes to the server that is
///   responsible for the row's handle.
pub fn built_has_its_parts()
    ensures { BuiltHasItsParts }
{}

/// Five inputs define one instance, or they have one first fault.
pub fn built_once()
    ensures { HasOneAnswer }
{
    one_answer();
}
