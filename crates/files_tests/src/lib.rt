// Tests of the readers of the two files.
#![tactic(auto)]

#[cfg(test)]
mod hex;
#[cfg(test)]
mod list_tests;
#[cfg(test)]
mod system_tests;
