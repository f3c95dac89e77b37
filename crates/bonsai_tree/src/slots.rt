// The slots of a node's block, each with the tag of a child.
ghost use Rattle.std.specs.Prelude.{◌≡◌, ◌<◌};
ghost use Rattle.sec_base.specs.Geometry.{arity};
ghost use Rattle.bonsai_tree.specs.Node.{tag_in_slot, with_tag};

use sec_base::{Geometry, TAG_LEN, put};

// The tag in a slot.
pub(crate) fn slot_tag(geometry: Geometry, block: &[u8; 64], slot: u32) -> [u8; TAG_LEN]
    requires { slot < arity geometry }
    ensures { result ≡ tag_in_slot geometry slot block.now }
{
    let length = geometry.slot_len();
    let at = length * slot as usize;
    let mut tag = [0; TAG_LEN];
    tag[..length].copy_from_slice(&block[at..at + length]);
    tag
}

// Puts a tag in a slot.
pub(crate) fn put_tag(geometry: Geometry, block: &mut [u8; 64], slot: u32, tag: &[u8; TAG_LEN])
    requires { slot < arity geometry }
    ensures { block.new ≡ with_tag geometry slot tag.now block.old }
{
    let length = geometry.slot_len();
    put(block, length * slot as usize, &tag[..length]);
}
