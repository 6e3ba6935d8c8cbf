// The answers to the entries of a log.

ghost use Rattle.std.specs.Prelude.{◌≡◌, ◌<◌};
ghost use Rattle.hsp_text.specs.declared.limits.TheConstants.{MOST_LOG_ROWS};
ghost use Rattle.hsp_dispatch.specs.Dispatch.{all_of};
ghost use Rattle.hsp_dispatch.specs.Lines.{count_all, counted};
ghost use Rattle.hsp_dispatch.specs.Steps.{none_counted};

/// The answer to an entry.
#[derive(Clone, Copy, Debug, PartialEq, Eq)]
pub enum Answer {
    /// The query goes to the server at a place of a site. Site and place are numbers, and the identifier is that of the
    /// site's record.
    Assigned {
        site: u32,
        place: u32,
        server_id: u32,
    },
    /// All of the row's number was assigned before.
    Spent,
    /// There is no row with the region and the handle.
    Unknown,
}

/// The answer to an entry at a front.
#[derive(Clone, Copy, Debug, PartialEq, Eq)]
pub enum FrontAnswer {
    /// The answer by the front's share of the plan.
    Answered(Answer),
    /// There is no front with the number.
    NoFront,
}

/// How an entry is answered.
#[derive(Clone, Copy)]
pub(crate) enum Given {
    /// By the server with this number among all servers.
    Server(u32),
    /// All of the row's number was assigned before.
    Spent,
    /// There is no row with the region and the handle.
    Unknown,
    /// There is no front with the number.
    NoFront,
}

/// How many entries of a log were answered by each kind of answer.
#[derive(Clone, Copy, PartialEq, Eq)]
pub struct LogSums {
    pub assigned: u64,
    pub spent: u64,
    pub unknown: u64,
}

/// How many events were answered by each kind of answer.
#[derive(Clone, Copy, Debug, PartialEq, Eq)]
pub struct FrontSums {
    pub assigned: u64,
    pub spent: u64,
    pub unknown: u64,
    pub no_front: u64,
}

impl FrontSums {
    /// The sums of no answers.
    pub(crate) fn none() -> FrontSums
        ensures { result ≡ none_counted }
    {
        FrontSums {
            assigned: 0,
            spent: 0,
            unknown: 0,
            no_front: 0,
        }
    }

    /// Counts one more answer.
    pub(crate) fn count(&mut self, given: Given)
        requires { count_all self.old < MOST_LOG_ROWS }
        ensures { self.new ≡ counted self.old given }
    {
        match given {
            Given::Server(_) => self.assigned += 1,
            Given::Spent => self.spent += 1,
            Given::Unknown => self.unknown += 1,
            Given::NoFront => self.no_front += 1,
        }
    }

    /// The sums as those of a log. No answer may be `NoFront`.
    pub(crate) fn without_fronts(&self) -> LogSums
        requires { self.now.no_front ≡ 0 }
        ensures { all_of result ≡ self.now }
    {
        LogSums {
            assigned: self.assigned,
            spent: self.spent,
            unknown: self.unknown,
        }
    }
}
