// Which form of the permutation does the work, picked at run time. What is answered is the same by both.
#[derive(Clone, Copy)]
pub enum Form {
    Plain,
    Planar,
}
