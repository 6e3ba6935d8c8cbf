/// How many queries of a row go to a site.
#[derive(Clone, Copy, Debug, PartialEq, Eq)]
pub struct UseLine {
    pub row: u32,
    pub site: u32,
    pub count: u64,
}
