/// A form outside the subset, or a size that is too great. `Absent` stands where the kind of a
/// fault tells all.
#[derive(Clone, Copy, Debug, PartialEq, Eq)]
pub enum Form {
    Absent,
    Fun,
    Name,
    Apply,
    Call,
    Try,
    Catch,
    Primop,
    Timeout,
    Spawn,
    Functions,
    Arity,
    Sites,
    Atoms,
}

/// A fault of a program: its kind, from 1 to 10, and where it holds. `module` is a place among the
/// given modules, `function` one among the functions of that module, and `node` one among the
/// nodes of that function.
#[derive(Clone, Copy, Debug, PartialEq, Eq)]
pub struct LintFault {
    pub kind: u8,
    pub module: u32,
    pub function: u32,
    pub node: u32,
    pub form: Form,
}
