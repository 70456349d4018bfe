// The starred cases of document 01 as one table with one theorem, and the wrong programs of "How a contract is judged": definitions and
// theorems alone, no function.
#![tactic(auto)]
