use hy_terms::Atoms;

/// The texts of the atoms and of the variables that were met so far.
#[derive(Drop)]
pub struct Tables {
    pub atoms: Atoms,
    pub variables: Atoms,
}
