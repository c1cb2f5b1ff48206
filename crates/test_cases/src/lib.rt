//! Test cases: how they are read from JSON, the results of those that render, and what the calls of parts answer.
//! `docs/TEST_CASES.md` has the format.
#![tactic(auto)]

pub mod bounded;
pub mod call;
pub mod came;
pub mod check;
pub mod expected;
pub mod failure;
pub mod fault;
pub mod fields;
pub mod file_answer;
pub mod files;
pub mod format;
pub mod helpers;
pub mod json_text;
pub mod long_text;
pub mod marks;
pub mod names;
pub mod outcome;
pub mod part_call;
pub mod pen;
pub mod piece;
pub mod pieces;
pub mod rendering;
pub mod reply;
pub mod shape;
pub mod show;
pub mod steps;
pub mod value_call;
