// Which part of all queries a network is of.

use std::alloc::{AllocError, Global};

/// Which part of all queries a network's sources ask for, and what a query pays that is left over.
#[derive(Clone, Copy, Drop)]
pub(crate) struct Terms {
    pub(crate) part: u64,
    pub(crate) whole: u64,
    pub(crate) penalty: u64,
}

impl Terms {
    /// The terms of sources that ask for all queries.
    pub(crate) fn of_all(penalty: u64) -> Terms {
        Terms {
            part: 1,
            whole: 1,
            penalty,
        }
    }

    // The same part of an amount.
    fn of(self, amount: u64) -> u64 {
        let product = u128::from(amount).saturating_mul(u128::from(self.part));
        let share = product / u128::from(self.whole.max(1));
        u64::try_from(share).unwrap_or(u64::MAX)
    }

    /// The same part of each amount.
    pub(crate) fn of_each(self, alloc: Global, amounts: &[u64]) -> Result<Vec<u64>, AllocError> {
        let mut shares = Vec::with_capacity(alloc, amounts.len())?;
        for amount in amounts {
            shares.push(self.of(*amount))?;
        }
        Ok(shares)
    }
}
