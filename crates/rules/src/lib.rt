// The rules of the block box: the domain's types, and in specs/ what they mean.
#![tactic(auto)]

pub mod aspect;
pub mod detection;
pub mod line;
pub mod refusal;
