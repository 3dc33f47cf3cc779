// The records of a swap file: the reader that finds them, and what each states.
#![tactic(auto)]

pub mod reader;
pub mod record;
