// The plans that tests start from, by name.

/// A plan that tests start from.
#[derive(Clone, Copy, Debug)]
pub enum Sample {
    /// Small: one volume with nothing but its two directories.
    S,
    /// Small with the file `hello.txt` of one block.
    H,
    /// Two snapshots, between which a file was renamed.
    V,
    /// The same with eight snapshots, one at each transaction from 1 to 8.
    V2,
    /// Small with a file of two names.
    L,
    /// Small with a file that begins with a hole.
    P,
    /// Small with two files that share a block.
    C,
    /// Small with a jumpstart of two blocks.
    J,
    /// Two volumes, of which the second one has a file of one block.
    T,
}
