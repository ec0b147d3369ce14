//! Lists in shared blocks. If all items of a list are shared, a copy of the list copies no item and only
//! counts one more sharer. Blocks are in inner nodes, which are shared too. So a change copies only the
//! blocks that it changes, the lists of blocks of their inner nodes, and the list of inner nodes.
//!
//! - `blocks`: blocks of items.
//! - `parts`: parts of a list, as blocks of an inner node or as inner nodes, and where each of them begins.
//! - `inner_nodes`: blocks in inner nodes, growing and shared.
//! - `lists`: lists, and one more item without memory.
//! - `runs`: items of a list from a place on.
//! - `builders`: lists made of runs of others and of new items.
//! - `iter`: the items of a list, in order.
//! - `slices`: consecutive items of a list, as a separate list.
#![tactic(auto)]

mod blocks;
mod builders;
mod clones;
mod inner_nodes;
mod iter;
mod lists;
mod parts;
mod runs;
mod slices;

pub use blocks::BLOCK_LEN;
pub use builders::Builder;
pub use iter::Iter;
pub use lists::BlockList;
pub use slices::Slice;
