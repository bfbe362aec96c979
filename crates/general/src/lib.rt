// Facts about booleans, options and lists that know nothing of layouts. No code: everything is in specs/.
#![tactic(auto)]
