//! Protected memory over buses that tell the truth, lie and fail.
#![tactic(auto)]

#[cfg(test)]
mod tests;
