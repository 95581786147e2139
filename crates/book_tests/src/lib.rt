// Tests of books in tables.
#![tactic(auto)]

#[cfg(test)]
mod tests;
