// The library that C links: host's calls under their C names, with the same clauses of the number in place of the Result.
#![tactic(auto)]

mod area_calls;
mod axis_calls;
mod check_calls;
mod drawer_calls;
mod settle_calls;
mod table_calls;
