//! The commands of the program: each is carried out over files, and a status and a text tell how it ended.
#![tactic(auto)]

mod answer_lines;
mod asking;
mod asm;
mod check;
mod commands;
mod explain;
mod join;
mod judging;
mod lines;
mod make;
mod numbers;
mod pipe;
mod recording;
mod run;
mod settle;
mod spelled_cells;
mod split;
mod top;
mod trial;
mod upgrade;

pub use top::{needs_team, tool, tool_one};
