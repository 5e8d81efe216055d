#![tactic(auto)]

// Theory over the contract of the listing checker, without code: when a listing is accepted, what the row says that is named, and what becomes of a join's listing and of bent ones.
