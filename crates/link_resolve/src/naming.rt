//! What names tell by themselves.

ghost use Rattle.std.specs.Prelude.{◌≡◌, ◌-◌, ◌++◌, length, IfOk};
ghost use Rattle.std.specs.Str.{bytes_eq};
ghost use Rattle.link_resolve.specs.Names.{is_guest_exit, before_guest_end, is_import};

use std::alloc::{AllocError, Global};

fn is_text(name: &[u8], text: &[u8]) -> bool
    ensures { result ≡ bytes_eq name.now text.now }
{
    name == text
}

/// Whether a name ends as those of guest exit thunks do.
#[tactic(auto, unfolding(crate::specs::Names::is_guest_exit))]
pub fn is_guest_exit(name: &[u8]) -> bool
    ensures { result ≡ is_guest_exit name.now }
{
    is_text(&name[name.len().saturating_sub(11)..], b"$exit_thunk")
}

/// What stands before that end.
pub fn before_guest_end(name: &[u8]) -> &[u8]
    ensures { result.now ≡ before_guest_end name.now }
{
    &name[..name.len().saturating_sub(11)]
}

/// Whether a name means a slot of the import table.
#[tactic(auto, unfolding(crate::specs::Names::is_import))]
pub fn is_import(name: &[u8]) -> bool
    ensures { result ≡ is_import name.now }
{
    is_text(name, b"__imp_put_byte")
        || is_text(name, b"__imp_get_byte")
        || is_text(name, b"__imp_exit")
        || is_text(name, b"__imp_trap")
        || is_text(name, b"__imp_#put_byte")
        || is_text(name, b"__imp_#get_byte")
        || is_text(name, b"__imp_#exit")
        || is_text(name, b"__imp_#trap")
        || is_text(name, b"__os_arm64x_check_icall")
        || is_text(name, b"__os_arm64x_dispatch_call_no_redirect")
        || is_text(name, b"__os_arm64x_dispatch_ret")
}

/// One name behind another.
pub fn joined(alloc: Global, front: &[u8], back: &[u8]) -> Result<Vec<u8>, AllocError>
    ensures { IfOk result (λ whole. whole.items ≡ front.now ++ back.now) }
{
    let mut whole = Vec::with_capacity(alloc, front.len())?;
    whole.extend_from_slice(front)?;
    whole.extend_from_slice(back)?;
    Ok(whole)
}
