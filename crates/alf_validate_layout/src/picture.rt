// Causes 1 to 4: the picture's own numbers.
ghost use Rattle.std.specs.Prelude.{◌≡◌};
ghost use Rattle.alf_spec.specs.Faults.{size_valid, picture_size_valid, ctb_size_valid, depth_valid, bit_depth_valid, chroma_format_valid};

use alf_spec::Picture;

// Whether a width or a height is a multiple of 8 from 8 to 4,096.
fn size_valid(size: u32) -> bool
    ensures { result ≡ size_valid size }
{
    (size % 8 == 0) & ((8 <= size) & (size <= 4096))
}

// Cause 1: width and height.
#[tactic(auto, unfolding(alf_spec::specs::Faults::picture_size_valid))]
pub fn picture_size_valid(picture: Picture) -> bool
    ensures { result ≡ picture_size_valid picture }
{
    size_valid(picture.width) & size_valid(picture.height)
}

// Cause 2: the CTB exponent.
#[tactic(auto, unfolding(alf_spec::specs::Faults::ctb_size_valid))]
pub fn ctb_size_valid(picture: Picture) -> bool
    ensures { result ≡ ctb_size_valid picture }
{
    (5 <= picture.ctb_log2) & (picture.ctb_log2 <= 7)
}

// Whether a bit depth is 8 to 12.
pub fn depth_valid(bit_depth: u8) -> bool
    ensures { result ≡ depth_valid bit_depth }
{
    (8 <= bit_depth) & (bit_depth <= 12)
}

// Cause 3: the bit depth.
#[tactic(auto, unfolding(alf_spec::specs::Faults::bit_depth_valid))]
pub fn bit_depth_valid(picture: Picture) -> bool
    ensures { result ≡ bit_depth_valid picture }
{
    depth_valid(picture.bit_depth)
}

// Cause 4: the chroma format. Whether the operation may have chroma, and its component, are judged beside it.
#[tactic(auto, unfolding(alf_spec::specs::Faults::chroma_format_valid))]
pub fn chroma_format_valid(picture: Picture) -> bool
    ensures { result ≡ chroma_format_valid picture }
{
    picture.chroma_format <= 3
}
