// Swap files: any bytes are read as one, and the answer is the file's content or the one refusal that the rules name.
#![tactic(auto)]

pub mod file;
pub mod refusal;
pub mod theorems;
