//! Authenticated databases: the layer of their snapshots.

pub mod current;
