/// The function around a text: its number, and how many variables are in scope of its letrec, or of
/// a function of a module none.
#[derive(Clone, Copy)]
pub struct Owner {
    pub function: u32,
    pub depth: u32,
}
