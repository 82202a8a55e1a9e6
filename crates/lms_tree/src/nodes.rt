//! The nodes of a tree, and the climb from a leaf to the root (RFC 8554, sections 5.3 and 5.4.2).

ghost use Rattle.std.specs.Prelude.{◌≡◌, ◌+◌, ◌*◌, ◌/◌, ◌%◌, ◌<◌, ◌≤◌, ◌^◌, length};
ghost use Rattle.sha2.specs.Sha256.{sha256};
ghost use Rattle.lms_tree.specs.Tree.{below, leaf_string, node_string};

use lm_ots::{u16str, u32str};
use sha2::{Digest, Sha256};

// D_LEAF and D_INTR of the RFC.
const D_LEAF: u16 = 0x8282;

const D_INTR: u16 = 0x8383;

// The node of leaf `r` over its one-time key.
pub(crate) fn leaf_hash(identifier: &[u8; 16], r: u32, k: &[u8; 32]) -> [u8; 32]
    ensures { result ≡ sha256 (leaf_string identifier.now r k.now) }
{
    let mut hasher = Sha256::new();
    hasher.update(identifier);
    hasher.update(u32str(r));
    hasher.update(u16str(D_LEAF));
    hasher.update(k);
    hasher.finalize()
}

// The inner node `r` over its two children.
pub(crate) fn node_hash(identifier: &[u8; 16], r: u32, left: &[u8], right: &[u8]) -> [u8; 32]
    ensures { result ≡ sha256 (node_string identifier.now r left.now right.now) }
{
    let mut hasher = Sha256::new();
    hasher.update(identifier);
    hasher.update(u32str(r));
    hasher.update(u16str(D_INTR));
    hasher.update(left);
    hasher.update(right);
    hasher.finalize()
}

// The root that a leaf's one-time key and the nodes beside its way lead to.
pub(crate) fn climb(
    identifier: &[u8; 16],
    height: u32,
    q: u32,
    k: &[u8; 32],
    path: &[u8],
) -> [u8; 32]
    requires low { height ≤ 25 }
    requires leaf { q < 2 ^ height }
    requires whole { length path.now ≡ 32 * height }
    ensures { result ≡ below identifier.now q
        (sha256 (leaf_string identifier.now (2 ^ height + q) k.now)) path.now height 1 }
{
    let mut node = (1 << height) + q;
    let mut tmp = leaf_hash(identifier, node, k);
    for level in 0..height {
        let at = 32 * level as usize;
        let beside = &path[at..at + 32];
        tmp = parent_hash(identifier, node, &tmp, beside);
        node /= 2;
    }
    tmp
}

// The parent of `node`, whose hash is `tmp` and whose sibling's is `beside`.
fn parent_hash(identifier: &[u8; 16], node: u32, tmp: &[u8; 32], beside: &[u8]) -> [u8; 32]
    ensures from_left { node % 2 ≡ 0
        → result ≡ sha256 (node_string identifier.now (node / 2) tmp.now beside.now) }
    ensures from_right { node % 2 ≡ 1
        → result ≡ sha256 (node_string identifier.now (node / 2) beside.now tmp.now) }
{
    if node % 2 == 0 {
        node_hash(identifier, node / 2, tmp, beside)
    } else {
        node_hash(identifier, node / 2, beside, tmp)
    }
}
