// What a moving window answers; no code. The definitions stand apart from the calls, so that the worked examples judge them by themselves.
#![tactic(auto)]
