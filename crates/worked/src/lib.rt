// Worked examples of the judge.
#![tactic(auto)]

mod examples;

pub use examples::verdicts_hold;
