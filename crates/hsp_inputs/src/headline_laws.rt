// What holds of all inputs.

ghost use Rattle.hsp_inputs.specs.HeadlineLaws.{AcceptsTheDefined, GivesNothingElse, GivesOneAnswer, GivesTheDefined};

use hsp_instance::laws::built_once;
use hsp_names::laws::readings_are_handles;
use hsp_record::laws::one_answer;

/// The page of the headline is what runs do. An instance that inputs give is one that they define by the page. Inputs
/// give one answer: one instance, or one first fault. So inputs that define an instance by the page give it and nothing
/// else, no other instance and no fault.
pub fn instances_are_defined()
    ensures given { GivesTheDefined }
    ensures accepted { AcceptsTheDefined }
    ensures once { GivesOneAnswer }
    ensures only { GivesNothingElse }
{
    readings_are_handles();
    one_answer();
    built_once();
}
