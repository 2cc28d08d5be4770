// No code: any two outcomes that a promise allows are equal, said of the promises that the contracts cite, and proved.
#![tactic(auto)]
