// Laws of the definitions.

ghost use Rattle.hsp_names.specs.Handle.{PartsAreUnique, ReadingsAreHandles};

/// A handle has one naming authority and one local name.
pub fn parts_are_unique()
    ensures { PartsAreUnique }
{}

/// Octets that are read as a handle are a handle, with the parts that the definition gives it. Every handle is read.
pub fn readings_are_handles()
    ensures { ReadingsAreHandles }
{}
