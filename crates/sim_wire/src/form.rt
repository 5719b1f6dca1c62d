//! Whether bytes are the frame of a message, by lengths and codes alone. It takes no memory, so a reader that asks here
//! first takes memory for frames alone.

ghost use Rattle.std.specs.Prelude.{◌+◌, ◌==◌, ◌≡◌};
ghost use Rattle.sim_wire.specs.Memory.{command_form, down_command_form, down_form, down_tag_form, ids_form, kind_form, state_form, up_command_form, up_form};
ghost use Rattle.sim_wire.specs.Memory.{up_tag_form};

use sim_base::MAX_STATE;
use sim_bytes::Take;

#[tactic(auto, unfolding(crate::specs::Memory::ids_form))]
fn has_ids(from: &mut Take<'_>, behind: u8) -> bool
    ensures { result ≡ ids_form behind from.old }
{
    let Ok(count) = from.u16() else {
        return false;
    };
    if count > 256 {
        return false;
    }
    from.left() == 4 * (count as usize) + behind as usize
}

#[tactic(auto, unfolding(crate::specs::Memory::kind_form))]
fn has_kind(kind: u8, from: &mut Take<'_>) -> bool
    ensures { result ≡ kind_form kind from.old }
{
    match kind {
        1 => has_ids(from, 8),
        2 => has_ids(from, 0),
        3 => has_ids(from, 4),
        4 => has_ids(from, 0),
        5 => from.left() == 10,
        6 => from.left() == 6,
        7 => from.left() == 0,
        _ => false,
    }
}

#[tactic(auto, unfolding(crate::specs::Memory::command_form))]
fn has_command(from: &mut Take<'_>) -> bool
    ensures { result ≡ command_form from.old }
{
    let Ok(kind) = from.u8() else {
        return false;
    };
    has_kind(kind, from)
}

#[tactic(auto, unfolding(crate::specs::Memory::state_form))]
fn has_state(from: &Take<'_>, before: u8) -> bool
    ensures { result ≡ state_form before from.now }
{
    let before = before as usize;
    let left = from.left();
    if left < before {
        return false;
    }
    if left > before + MAX_STATE {
        return false;
    }
    true
}

#[tactic(auto, unfolding(crate::specs::Memory::up_command_form))]
fn has_up_command(from: &mut Take<'_>) -> bool
    ensures { result ≡ up_command_form from.old }
{
    let Ok(_) = from.u32() else {
        return false;
    };
    has_command(from)
}

#[tactic(auto, unfolding(crate::specs::Memory::up_tag_form))]
fn has_up_tag(tag: u8, from: &mut Take<'_>) -> bool
    ensures { result ≡ up_tag_form tag from.old }
{
    match tag {
        1 => from.left() == 0,
        2 => has_up_command(from),
        3 => from.left() == 4,
        4 => from.left() == 20,
        5 => has_state(from, 5),
        _ => false,
    }
}

#[tactic(auto, unfolding(crate::specs::Memory::down_command_form))]
fn has_down_command(from: &mut Take<'_>) -> bool
    ensures { result ≡ down_command_form from.old }
{
    let Ok(_) = from.u32() else {
        return false;
    };
    let Ok(_) = from.u8() else {
        return false;
    };
    has_command(from)
}

#[tactic(auto, unfolding(crate::specs::Memory::down_tag_form))]
fn has_down_tag(tag: u8, from: &mut Take<'_>) -> bool
    ensures { result ≡ down_tag_form tag from.old }
{
    match tag {
        1 => from.left() == 1,
        2 => has_state(from, 4),
        3 => has_down_command(from),
        4 => from.left() == 4,
        5 => from.left() == 5,
        6 => from.left() == 1,
        _ => false,
    }
}

/// Whether bytes are the frame of what a client says.
#[tactic(auto, unfolding(crate::specs::Memory::up_form))]
pub fn is_up_form(bytes: &[u8]) -> bool
    ensures { result ≡ up_form bytes.now }
{
    let mut from = Take::new(bytes);
    let Ok(size) = from.u32() else {
        return false;
    };
    if size as usize != from.left() {
        return false;
    }
    let Ok(tag) = from.u8() else {
        return false;
    };
    has_up_tag(tag, &mut from)
}

/// Whether bytes are the frame of what the server says.
#[tactic(auto, unfolding(crate::specs::Memory::down_form))]
pub fn is_down_form(bytes: &[u8]) -> bool
    ensures { result ≡ down_form bytes.now }
{
    let mut from = Take::new(bytes);
    let Ok(size) = from.u32() else {
        return false;
    };
    if size as usize != from.left() {
        return false;
    }
    let Ok(tag) = from.u8() else {
        return false;
    };
    has_down_tag(tag, &mut from)
}
