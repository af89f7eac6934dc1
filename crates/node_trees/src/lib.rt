//! What the tree of a board is made of: nodes with generations, operators over nodes, and trees of new nodes.
#![tactic(auto)]

pub mod blanks;
pub mod branch;
pub mod expansion;
pub mod find;
pub mod fresh;
mod generations;
pub mod left;
pub mod node;
pub mod origin;
pub mod renew;
pub mod rest;
pub mod rows;
pub mod unfold;
mod view;
