#![tactic(auto)]

// Lists as tables and the laws on them that many crates cite. No code of its own.
