// Tests of the lines of a script, and of the bench at its limits.
#![tactic(auto)]

#[cfg(test)]
mod limit_tests;
#[cfg(test)]
mod line_tests;
