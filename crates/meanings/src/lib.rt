// What a refusal means, in words.
#![tactic(auto)]

mod meanings;

pub use meanings::refusal_text;
