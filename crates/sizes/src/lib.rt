// The sizes of a part. A size is its number of blocks: C gives it so, and the definitions take it so.
#![tactic(auto)]

ghost use Rattle.std.specs.Prelude.{◌≡◌};
ghost use Rattle.paper.specs.Sizes.{is_large, size_ok};

// Whether a part of so many blocks is the large one.
pub fn is_large(blocks: u64) -> bool
    ensures { result ≡ is_large blocks }
{
    blocks == 512
}

// Whether a part of so many blocks exists: 1, 4, 8, 16 or 512.
pub fn size_ok(blocks: u64) -> bool
    ensures { result ≡ size_ok blocks }
{
    matches!(blocks, 1 | 4 | 8 | 16 | 512)
}
