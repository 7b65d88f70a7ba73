// What a table's page is; no code. The definitions stand apart from what puts a page, so that the worked examples judge them by themselves.
#![tactic(auto)]
