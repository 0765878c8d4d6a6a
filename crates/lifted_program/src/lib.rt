//! The lifted program: functions of letrecs as functions of the program, and what it keeps.
#![tactic(auto)]

pub mod laws;
