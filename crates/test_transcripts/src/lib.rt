//! Tests of what is read of a transcript, and said of it: one call of each public function, with ample memory.
#![tactic(auto)]

#[cfg(test)]
mod judged;
#[cfg(test)]
mod read;
