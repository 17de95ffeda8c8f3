//! What single tokens and whole texts of a script give to its tree.
#![tactic(auto)]

mod arithmetic;
mod asked;
mod assignments;
mod commands;
mod conditions;
mod entry;
mod literals;
mod names;
mod parameters;
mod queue;
mod redirections;
mod sign;
mod values;

pub use arithmetic::{arith_of, part_of_for};
pub use asked::Asked;
pub use assignments::{adds, assignment_of, is_assigned};
pub use commands::{
    ended_by, is_newline, joins, list_of, negated, opens_list, piped, subst_kind, with_redirects,
};
pub use conditions::test_of;
pub use entry::Entry;
pub use literals::{add_literal, add_pieces, add_token, literal_word, quotes};
pub use names::{from_place, name_of, names_of, path_front, path_of, path_word, prefix_of};
pub use parameters::{formed, plain_form, simple_param};
pub use redirections::{redirect_form, redirect_to};
pub use sign::{Moment, Sign};
pub use values::value_of;
