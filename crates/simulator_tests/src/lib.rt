#![tactic(auto)]

// Tests of the machine in memory, in a crate of their own so that the machine is proved once.
#[cfg(test)]
mod ends;
#[cfg(test)]
mod tricks;
