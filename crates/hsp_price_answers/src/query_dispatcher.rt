// Who answers the queries of rows.

ghost use Rattle.std.specs.Prelude.{◌≡◌, [], List, OnOk, ℕ};
ghost use Rattle.hsp_log.specs.Entries.{Entry, query};

use hsp_names::HandleRef;
use std::alloc::{AllocError, Global};

/// Who answers the queries of rows, each by one line. A dispatcher may change with each query.
pub(crate) trait QueryDispatcher {
    /// How many queries were answered in each way, with the number of refused rows.
    type Sums: Copy;

    /// A dispatcher takes a query, is the next dispatcher then, and answers by this line.
    ghost Takes: { Self → Entry → Self → List ℕ → Type 0 };

    /// The sums of a dispatcher, where so many rows were refused.
    ghost sums_of: { Self → ℕ → Self.Sums };

    /// Takes a query for a handle from a region, and writes its line.
    fn take_query(
        &mut self,
        alloc: Global,
        region: &[u8],
        handle: HandleRef<'_>,
        line: &mut Vec<u8>,
    ) -> Result<(), AllocError>
        requires { line.old.items ≡ [] }
        ensures { OnOk result
            (Takes self.old (query region.now handle.entry) self.new line.new.items) };

    /// The sums, where so many rows were refused.
    fn sums(&self, refused: u64) -> Self::Sums
        ensures { result ≡ sums_of self.now refused };
}
