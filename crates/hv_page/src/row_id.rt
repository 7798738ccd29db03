/// Where a row stands in its chunk: the number of its heap page and its slot on that page, both counted from 0.
#[derive(Clone, Copy, Debug, PartialEq, Eq)]
pub struct RowId {
    pub page: u32,
    pub slot: u16,
}
