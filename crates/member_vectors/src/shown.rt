//! How a post is shown.

use sha2::{Digest, Sha256};
use signed_post::unframed;
use std::alloc::Global;
use wire_core::Mem;

fn digest(alloc: Global, bytes: &[u8]) -> Mem<String> {
    let mut hasher = Sha256::new();
    hasher.update(bytes);
    hex::encode(alloc, &hasher.finalize())
}

// The stage of a post, and SHA-256 of its content and of the whole.
pub(crate) fn shown(alloc: Global, bytes: &[u8]) -> Mem<String> {
    let Ok(parts) = unframed(bytes) else {
        return Ok(String::new(alloc));
    };
    let stage = parts.content.get(41).copied().unwrap_or(0);
    let content = digest(alloc, parts.content)?;
    let whole = digest(alloc, bytes)?;
    format!(in alloc; "{} {} {}", stage, content, whole)
}
