use hy_core::{Bif, Class, FunInfo, SiteInfo, Text};
use hy_terms::Atoms;
use sqlite_items::{Boxed, Items};

/// A value that needs no cell.
#[derive(Clone, Copy, Debug, PartialEq, Eq)]
pub enum Constant {
    Int(i64),
    /// The place of its text in the program's table of atoms.
    Atom(u32),
    Nil,
}

/// An operation. Each gives its value to the register `out`. Registers, sites, functions and nodes
/// are numbers.
#[derive(Drop)]
pub enum Op {
    Const {
        out: u32,
        value: Constant,
    },
    Move {
        out: u32,
        from: u32,
    },
    /// A tuple or one cons, as the kind of the site says.
    Build {
        site: u32,
        out: u32,
        args: Items<u32>,
    },
    /// The list of the bytes of a string that isn't empty.
    Text {
        site: u32,
        out: u32,
        text: Text,
    },
    /// `setelement`: the tuple with the part at the index replaced.
    Set {
        site: u32,
        out: u32,
        index: u32,
        tuple: u32,
        value: u32,
    },
    /// A built-in that gives a value or raises, and does nothing else.
    Bif {
        out: u32,
        bif: Bif,
        args: Items<u32>,
    },
    /// A call of a function, with more to do behind it.
    Call {
        out: u32,
        function: u32,
        args: Items<u32>,
    },
    /// The value is the message. The node is that of the call in its top function.
    Send {
        node: u32,
        out: u32,
        to: u32,
        message: u32,
    },
    /// The value is the pid of the new process, which starts with the call of the function.
    Spawn {
        node: u32,
        out: u32,
        function: u32,
        args: Items<u32>,
    },
    /// `display`: the value is `'true'`.
    Show {
        out: u32,
        value: u32,
    },
}

/// A test of the value of the register `from`. It may give the value, or parts of it, to registers.
#[derive(Drop)]
pub enum Test {
    /// Holds for each value.
    Bind {
        out: u32,
        from: u32,
    },
    IsInt {
        from: u32,
        value: i64,
    },
    IsAtom {
        from: u32,
        atom: u32,
    },
    IsNil {
        from: u32,
    },
    /// Holds for the list of these bytes.
    IsText {
        from: u32,
        text: Text,
    },
    /// Holds for a tuple of this size. Its parts go to `outs`.
    IsTuple {
        from: u32,
        size: u32,
        outs: Items<u32>,
    },
    /// Holds for a cons. Its head and its tail go to these registers.
    IsCons {
        from: u32,
        head: u32,
        tail: u32,
    },
}

/// The guard of an arm: operations `Const`, `Move` and `Bif`, and the register of its value.
/// It holds where none of them raises and the value is `'true'`.
#[derive(Drop)]
pub struct Guard {
    pub operations: Items<Op>,
    pub register: u32,
}

/// Parts, carried out in order, and a last part. So a tree is no deeper than the text is nested.
#[cycle(trees)]
#[derive(Drop)]
pub struct Tree {
    pub parts: Items<Part>,
    pub last: Last,
}

/// What is carried out before the last part of a tree.
#[cycle(trees)]
#[derive(Drop)]
pub enum Part {
    Do(Op),
    /// The inner tree is carried out, and its values go to `outs`.
    Within { outs: Items<u32>, inner: Tree },
}

/// What a tree ends with.
#[cycle(trees)]
#[derive(Drop)]
pub enum Last {
    /// The values of these registers are the values of the tree.
    Give(Items<u32>),
    /// A call of a function, whose value is that of the tree.
    Tail {
        function: u32,
        args: Items<u32>,
    },
    /// `error`, `exit` and `throw`.
    Raise {
        class: Class,
        reason: u32,
    },
    /// `match_fail`: raises the reason as an error, or `function_clause` where the reason is a
    /// tuple that begins with this atom.
    Fail {
        reason: u32,
    },
    /// The first arm that accepts goes on. Without one the tree raises the error `no_clause`.
    Choose {
        arms: Items<Arm>,
    },
    /// A `receive`: the message goes to the register `message`, and the first arm that accepts goes
    /// on. `lapse` is the tree for timeout 0, and none where the process waits for ever.
    Receive {
        message: u32,
        arms: Items<Arm>,
        lapse: Option<Boxed<Tree>>,
    },
}

/// One way on of a `Choose` or a `Receive`. It accepts where all tests and then the guard hold. An
/// arm that doesn't accept leaves no register changed.
#[cycle(trees)]
#[derive(Drop)]
pub struct Arm {
    pub tests: Items<Test>,
    pub guard: Guard,
    pub body: Tree,
}

/// A function: the registers from 0 are its parameters, and a register that nothing has written
/// holds nil.
#[derive(Drop)]
pub struct CodeFunction {
    pub params: u32,
    pub registers: u32,
    pub body: Tree,
}

/// The code of a program: its functions and its sites by their numbers, what each function is named
/// after, and the table of atoms.
#[derive(Drop)]
pub struct Code {
    pub functions: Items<CodeFunction>,
    pub sites: Items<SiteInfo>,
    pub names: Items<FunInfo>,
    pub atoms: Atoms,
}
