// The rules that each record of a swap file obeys after the records before it.
#![tactic(auto)]

pub mod draft;
mod fields;
