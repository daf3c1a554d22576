ghost use Rattle.std.specs.Prelude.{◌≡◌, ℕ, Bool};

/// The block types of a routing graph file, by their ids. `known` is whether the file has a block
/// type of an id.
pub trait BlockTypeIds {
    ghost known: { Self → ℕ → Bool };

    /// Whether the file has a block type of this id. It takes no memory.
    fn has_block_type(&self, id: u32) -> bool
        ensures { result ≡ known self.now id };
}
