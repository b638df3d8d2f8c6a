/// How many slots of each class a heap has.
#[derive(Clone, Copy, PartialEq, Eq, Debug)]
pub struct Counts {
    pub small: u32,
    pub page: u32,
    pub large: u32,
}
