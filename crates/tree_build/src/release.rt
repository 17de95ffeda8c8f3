//! Where trees and what is open of one are dropped.
//!
//! The drop of a tree is proved anew in each function that may drop one. So those that are done with one hand it over to these.
use crate::frames::{Compounds, Frames, Lists, Redirections, Simples, Texts};
use ksh_ast::List;

/// Drops a tree.
pub fn release_list(_list: List) {}

fn release_texts(_texts: Texts) {}

fn release_redirections(_redirections: Redirections) {}

fn release_simples(_simples: Simples) {}

fn release_lists(_lists: Lists) {}

fn release_compounds(_compounds: Compounds) {}

/// Drops what is open of a tree.
pub fn release_frames(frames: Frames) {
    let Frames {
        opened: _,
        texts,
        redirections,
        simples,
        lists,
        compounds,
    } = frames;
    release_texts(texts);
    release_redirections(redirections);
    release_simples(simples);
    release_lists(lists);
    release_compounds(compounds);
}
