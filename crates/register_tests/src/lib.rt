// The register's rules and clients on examples. The check proves each test, and then runs it.
#![tactic(auto)]

#[cfg(test)]
mod tests;
