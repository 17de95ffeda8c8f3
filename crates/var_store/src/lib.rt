//! The variables of a shell: rows by path, with the faults of each change.
#![tactic(auto)]

mod changing;
mod declaring;
mod faults;
mod growth;
mod looking;
mod row_list;
mod shaping;
mod standing;
mod store;
mod walk;

pub use faults::VarFault;
pub use store::VarStore;
