// The check of a node and of all below it, in a range of the archive (rkyv's src/validation/archive and src/collections/btree/map/mod.rs).
#![tactic(auto)]

pub mod archive;
pub mod node;
