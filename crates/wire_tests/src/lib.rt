// Tests of books in bytes.
#![tactic(auto)]

#[cfg(test)]
mod tests;
