//! Calls of single crates: what no clause says of them, that calls succeed, and that values may cross threads.
#![tactic(auto)]

#[cfg(test)]
mod argument_calls;
#[cfg(test)]
mod board_calls;
#[cfg(test)]
mod byte_calls;
#[cfg(test)]
mod cut_calls;
#[cfg(test)]
mod file_calls;
#[cfg(test)]
mod instruction_calls;
#[cfg(test)]
mod law_calls;
#[cfg(test)]
mod line_calls;
#[cfg(test)]
mod outside_calls;
#[cfg(test)]
mod text_calls;
#[cfg(test)]
mod tree_calls;
