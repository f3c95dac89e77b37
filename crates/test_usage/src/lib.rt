//! Words that are no request.
#![tactic(auto)]

#[cfg(test)]
mod tests;
