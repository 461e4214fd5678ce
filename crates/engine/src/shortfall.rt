// Too few mixings are left: how many were wanted, and how many there are. It is refusal 9.
#[derive(Clone, Copy, PartialEq, Eq, Debug)]
pub struct Shortfall {
    pub wanted: u32,
    pub left: u32,
}
