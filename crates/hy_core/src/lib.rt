//! The syntax tree of a module, its grammar, and what programs mean.
#![tactic(auto)]

mod bif;
mod class;
mod end;
mod fault;
mod info;
pub mod laws;
mod limits;
mod place;
mod refusal;
mod step;
mod tables;
mod text;
mod token;
mod tree;

pub use bif::Bif;
pub use class::Class;
pub use end::{Cause, End};
pub use fault::{Form, LintFault};
pub use info::{FunInfo, SiteInfo, SiteKind};
pub use limits::Limits;
pub use place::Place;
pub use refusal::RefusalKind;
pub use step::{Item, Step};
pub use tables::Tables;
pub use text::Text;
pub use token::{ByteClass, Ending, Lexeme, Sign, Symbol, Token};
pub use tree::{Clause, Expr, FunName, Function, Module, Pattern, Program};
