// Where the run of each group begins and ends in a list that is sorted by its groups.

ghost use Rattle.std.specs.Prelude.{◌≡◌, ◌+◌, ◌<◌, ◌++◌, ◌∷◌, [], IfOk, OnOk, OnErr, length, slice_index};

use std::alloc::{AllocError, Global};
use std::marker::Model;

/// Where the run of each group begins and ends in a list that is sorted by its groups.
///
/// Groups are numbered from 0 on. The entries of a group are those from its beginning up to the beginning of the next.
#[derive(Drop)]
pub struct Runs {
    starts: Vec<usize>,
}

impl Model for Runs {
    ghost use Rattle.std.specs.Prelude.{List, ℕ, ◌<◌, length};

    ghost Value = { List ℕ };

    ghost view = { λ r. r.starts.items };

    ghost invariant = { λ r. 0 < length r.starts.items };
}

impl Runs {
    /// No runs yet. The first one begins at 0.
    ///
    /// # Errors
    ///
    /// An `AllocError` where memory runs out.
    pub fn new(alloc: Global) -> Result<Runs, AllocError>
        ensures { IfOk result (λ runs. runs ≡ 0 ∷ []) }
    {
        let mut starts = Vec::new(alloc);
        starts.push(0)?;
        Ok(Runs { starts })
    }

    /// Ends the run of the next group at this place, where the run of the group after it begins.
    ///
    /// # Errors
    ///
    /// An `AllocError` where memory runs out. Then nothing changes.
    pub fn end_at(&mut self, end: usize) -> Result<(), AllocError>
        ensures end { OnOk result (self.new ≡ self.old ++ end ∷ []) }
        ensures refused { OnErr result (self.new ≡ self.old) }
    {
        self.starts.push(end)?;
        Ok(())
    }

    /// How many runs there are.
    pub fn len(&self) -> usize
        ensures { result + 1 ≡ length self.now }
    {
        self.starts.len() - 1
    }

    /// Where the run of a group below [`Runs::len`] begins and ends.
    pub fn run(&self, group: usize) -> (usize, usize)
        requires { group + 1 < length self.now }
        ensures begin { result.0 ≡ slice_index self.now group }
        ensures end { result.1 ≡ slice_index self.now (group + 1) }
    {
        (self.starts[group], self.starts[group + 1])
    }
}
