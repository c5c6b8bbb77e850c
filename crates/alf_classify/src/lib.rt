// The classes of a piece: the class and the transpose of each of its 4 by 4 luma blocks. From the piece's copy with its margin, second
// differences are found once for each sample, and each block sums those of its window. The class map and the luma filter both go by pieces,
// and stand on this.
#![tactic(auto)]

mod blocks;
mod differences;
mod sums;

pub use blocks::piece_classes;
pub use differences::AREA;
