//! How HTML is read, byte by byte, and where in it data may stand.
#![tactic(auto, unfolding(crate::specs::Tokenizer::next, crate::specs::Html::step, crate::specs::Same::is_same_tokenizer))]

pub mod address;
pub mod ascii;
pub mod blocks;
pub mod copies;
pub mod effect;
pub mod fault;
pub mod found;
pub mod html;
pub mod inclusion;
pub mod laws;
mod lists;
pub mod names;
pub mod others;
mod parts;
pub mod plain;
pub mod reading;
pub mod rows;
pub mod same;
pub mod search;
pub mod states;
pub mod stop;
pub mod tag;
pub mod texts;
pub mod tokenizer;
pub mod tree;
pub mod user;
pub mod values;
mod words;
