// What is answered about a text of any kind: the laws (proofs/) that a book's text and a sampling table's share. No code.
#![tactic(auto)]
