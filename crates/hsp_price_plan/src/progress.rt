// How far a plan of rows is.

/// Who is shown how far a plan of rows is. Nothing of a plan rests on it.
pub trait Progress {
    /// So many rows are read.
    fn rows_read(&mut self, rows: u64);

    /// A sample of so many rows is planned, or all of them.
    fn level(&mut self, rows: u64);

    /// A round found so many arcs more that a plan may need, and another follows.
    fn left(&mut self, arcs: u64);
}

/// Shows nothing.
#[derive(Clone, Copy, Drop)]
pub struct Silent;

impl Progress for Silent {
    fn rows_read(&mut self, _rows: u64) {}

    fn level(&mut self, _rows: u64) {}

    fn left(&mut self, _arcs: u64) {}
}
