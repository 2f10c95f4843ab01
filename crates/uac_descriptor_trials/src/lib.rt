//! The tests of the crates from the descriptor's blocks up to the function, through their public calls: worked blocks and descriptors,
//! and that calls with ample memory find it. They stand in a crate of their own, since a crate with tests is proved twice.
#![tactic(auto)]

/// The blocks that several tests name.
#[cfg(test)]
mod blocks;
/// The reader of a descriptor's bytes.
#[cfg(test)]
mod reader;
/// The grammar, block by block.
#[cfg(test)]
mod sentence;
/// The function that blocks describe.
#[cfg(test)]
mod topology;
/// Blocks as bytes.
#[cfg(test)]
mod writing;
