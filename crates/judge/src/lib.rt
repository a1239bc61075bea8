// The judge of lines over any machine.
#![tactic(auto)]

mod judging;
mod uncovered;
mod verdict;

pub use judging::judge_lines;
pub use verdict::Verdict;
