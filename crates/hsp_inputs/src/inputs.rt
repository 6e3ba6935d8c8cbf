// What a run is given.

ghost use Rattle.std.specs.Prelude.{◌≡◌};
ghost use Rattle.hsp_inputs.specs.Limits.{limits_of};

use hsp_tables::Limits;

/// The octets of the inputs that define an instance. Sites of the settings refer to the value list by its indices.
/// Where no table of demand is given, the instance has no rows: they are those of a log.
#[derive(Drop)]
pub struct Inputs {
    pub settings: Vec<u8>,
    pub values: Option<Vec<u8>>,
    pub demand: Option<Vec<u8>>,
    pub costs: Vec<u8>,
    pub capacity: Vec<u8>,
}

impl Inputs {
    /// Within which limits the tables are read.
    pub fn limits(&self) -> Limits
        ensures { result ≡ limits_of self.now }
    {
        match &self.demand {
            Some(_) => Limits::Tables,
            None => Limits::Logs,
        }
    }
}
